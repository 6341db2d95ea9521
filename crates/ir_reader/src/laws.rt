//! Laws of reading, each as the contract of a function that does nothing.
ghost use Rattle.ir_reader.specs.Laws.{ReadsPrograms, ReadsEach, RefusesRightly, RefusesEach};
ghost use Rattle.ir_reader.specs.Readings.{SomeAnswer, OneProgram, OneRefusal, NotBoth, CanonicalIsRead};

/// How the tokens of a text are read: as the program that they are written with, and, where there is
/// none, refused for the one right cause at the one right token.
pub fn reads_programs()
    ensures sound { ReadsPrograms }
    ensures complete { ReadsEach }
    ensures right { RefusesRightly }
    ensures one_refusal { RefusesEach }
{}

/// A text has one answer: it is one program's, or refused in one way, and not both.
pub fn one_answer()
    ensures some { SomeAnswer }
    ensures one_program { OneProgram }
    ensures one_refusal { OneRefusal }
    ensures not_both { NotBoth }
{}

/// The canonical text of a program that a text is, is that program's again up to places, where it has at most
/// 1,048,576 bytes.
pub fn reads_canonical()
    ensures { CanonicalIsRead }
{}
