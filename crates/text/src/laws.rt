// Theorems on spelling and reading; each stands as the promise of a function that does nothing.
ghost use Rattle.text.specs.Laws.{SpellingServes, SpellingTells, SpelledIsRead, ReadIsSpelled, OneAnswer};

// Every list of frames has a spelling, and no text spells two of them.
pub fn spelling_stands()
    ensures some { SpellingServes }
    ensures tells { SpellingTells }
{}

// Reading gives back the frames that were spelled, and no other text is read to its end.
pub fn reading_stands()
    ensures back { SpelledIsRead }
    ensures only { ReadIsSpelled }
{}

// The answer to a text is determined, want of memory apart.
pub fn answer_stands()
    ensures { OneAnswer }
{}
