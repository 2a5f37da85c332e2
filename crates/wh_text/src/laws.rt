//! Laws of reading, each the contract of an empty function.
ghost use Rattle.wh_text.specs.ReadingBack.{ReadsBack};
ghost use Rattle.wh_text.specs.CertificateTexts.{ReadsCertificates, NamesTheFirstBadLine};
ghost use Rattle.wh_text.specs.Laws.{ReadsReduceTexts, ReadsDecideTexts, ReadsStraightenTexts, ReadsStabiliserTexts, NamesTheFirstBadByte};

/// A text is accepted exactly where it is spelled as a problem of `reduce`.
pub fn reduce_texts()
    ensures { ReadsReduceTexts }
{}

/// A text is accepted exactly where it is spelled as a problem of `decide`.
pub fn decide_texts()
    ensures { ReadsDecideTexts }
{}

/// A text is accepted exactly where it is spelled as a problem of `straighten`.
pub fn straighten_texts()
    ensures { ReadsStraightenTexts }
{}

/// A text is accepted exactly where it is spelled as a problem of `stabiliser`.
pub fn stabiliser_texts()
    ensures { ReadsStabiliserTexts }
{}

/// A refusal of a byte names the first line that has a bad one, and the leftmost in it.
pub fn first_bad_byte()
    ensures { NamesTheFirstBadByte }
{}

/// What is printed for an answer that is a certificate is read back as that answer.
pub fn printed_answers()
    ensures { ReadsBack }
{}

/// A text is accepted as a certificate exactly where it is spelled as one.
pub fn certificates()
    ensures { ReadsCertificates }
{}

/// A text that is refused at a line is refused at the first that no certificate with the lines before it has: some
/// certificate has those lines, and none has this line after them. Where the text ends too early, this is the place past
/// the end.
pub fn refused_lines()
    ensures { NamesTheFirstBadLine }
{}
