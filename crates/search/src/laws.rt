// Theorems on the shape of a plan; each stands as the promise of a function that does nothing.
ghost use Rattle.search.specs.Laws.{OneFault, SoundHasNone};

// A plan has one fault at most, want of memory aside: the order of the checks and the smallest place decide.
pub fn fault_is_one()
    ensures { OneFault }
{}

// A sound plan has no fault.
pub fn sound_has_none()
    ensures { SoundHasNone }
{}
