//! Laws of lines, fields and numbers, each the contract of an empty function.
ghost use Rattle.wh_lines.specs.Laws.{ReadsNumbers, ReadsLines, ReadsFields};

/// A number is read exactly from its decimal digits.
pub fn numbers()
    ensures { ReadsNumbers }
{}

/// The lines of a text are those that were written.
pub fn lines()
    ensures { ReadsLines }
{}

/// The fields of a line are the longest runs of bytes other than space.
pub fn fields()
    ensures { ReadsFields }
{}
