//! Laws of runs. Each is the contract of a function that does nothing.
ghost use Rattle.whitehead.specs.Laws.{ToldIsUnique, AnswersAreValid, ToldIsTrue, ValidIsShown};

/// Words and bytes determine the status and the text that are told, byte for byte: two runs that aren't stopped by a fault
/// or want of memory write the same. Where a list of moves is to be straightened they determine the status alone, since
/// each straight list serves.
pub fn told()
    ensures { ToldIsUnique }
{}

/// What a run writes for a problem that it reduces or decides, or whose stabiliser it tells, is told `valid` when another
/// run checks it. Answers of `straighten` can't be checked.
pub fn answers()
    ensures { AnswersAreValid }
{}

/// Whatever a run tells is so: a yes to two tuples where some automorphism takes the first to the second, a no where none
/// does, and `valid` where what the text says is so (Whitehead 1936; Higgins and Lyndon 1974; Nielsen 1924).
pub fn meaning()
    ensures { ToldIsTrue }
{}

/// Whatever text a run tells `valid` is a certificate, whoever wrote it, and shows what it says.
pub fn valid_texts()
    ensures { ValidIsShown }
{}
