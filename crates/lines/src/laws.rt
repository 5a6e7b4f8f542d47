// A theorem on the lines, as the promise of a function that does nothing.
ghost use Rattle.lines.specs.Differ.{LinesDiffer};

// Two different rows never have the same line.
pub fn lines_differ()
    ensures { LinesDiffer }
{}
