// Theorems on plans and on reading; each stands as the promise of a function that does nothing.
ghost use Rattle.plan.specs.Laws.{TurnedTwice, WritingTells, WrittenIsRead, OneReading};

// Turning twice gives the meaning back.
pub fn turning_stands()
    ensures { TurnedTwice }
{}

// A plan's writing tells the plan, and reading gives back what was written.
pub fn writing_stands()
    ensures tells { WritingTells }
    ensures back { WrittenIsRead }
{}

// The answer to a text is determined, want of memory apart.
pub fn reading_stands()
    ensures { OneReading }
{}
