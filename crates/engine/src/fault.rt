// What can be wrong with a question's framing.
ghost use Rattle.std.specs.Prelude.{◌≡◌};
ghost use Rattle.engine.specs.Numbers.{number_of_fault};

// A fault in the framing of a question: nothing was asked. Its number is the kind of the answer.
#[derive(Clone, Copy, PartialEq, Eq, Debug)]
pub enum Fault {
    // The input ended within the question.
    CutOff = 1,
    // No question has this number.
    Unknown = 2,
    // The numbers and rows do not fill the size.
    Misfit = 3,
    // A row or the whole is longer than the engine takes.
    TooLong = 4,
}

impl From<Fault> for u32 {
    ghost from_gives = { λ fault number. number ≡ number_of_fault fault };

    // The kind of the answer to a question with this fault; kind 0 has none.
    fn from(fault: Fault) -> u32 {
        fault as u32
    }
}
