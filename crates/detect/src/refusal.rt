// Why a tape is refused: the first of the questions 1 to 15 whose answer is no.
ghost use Rattle.std.specs.Prelude.{◌≡◌};
ghost use Rattle.detect.specs.Told.{question_of, offset_of};
ghost use Rattle.detect.specs.declared.refusal.Refusal.TheVariants.{Tape};

use tape::Fault;

#[derive(Clone, Copy, Debug, PartialEq, Eq)]
pub enum Refusal {
    Tape(Fault), // 1 to 8
    SmallWork, // 9
    SmallOperations, // 10
    NoOrder, // 11
    BadBlocks, // 12
    Interactions, // 13
    OverLimit, // 14
    SmallState, // 15
}

impl From<Fault> for Refusal {
    ghost from_gives = { λ fault r. r ≡ Tape fault };

    fn from(fault: Fault) -> Refusal {
        Refusal::Tape(fault)
    }
}

impl Refusal {
    // The question's number, by a match and not by a cast: one case holds a fault.
    pub fn number(self) -> u32
        ensures { result ≡ question_of self }
    {
        match self {
            Refusal::Tape(fault) => fault.number(),
            Refusal::SmallWork => 9,
            Refusal::SmallOperations => 10,
            Refusal::NoOrder => 11,
            Refusal::BadBlocks => 12,
            Refusal::Interactions => 13,
            Refusal::OverLimit => 14,
            Refusal::SmallState => 15,
        }
    }

    // The offset of a record that is at fault, else 0, as the format's answer has it.
    pub fn place(self) -> usize
        ensures { result ≡ offset_of self }
    {
        match self {
            Refusal::Tape(fault) => fault.place(),
            _ => 0,
        }
    }
}
