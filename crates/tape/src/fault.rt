// What is wrong with a tape: the first of the questions 1 to 8 whose answer is no, and the offset of
// the record that it is asked of.
ghost use Rattle.std.specs.Prelude.{◌≡◌};
ghost use Rattle.tape.specs.Told.{number_of, place_of};

#[derive(Clone, Copy, Debug, PartialEq, Eq)]
pub enum Fault {
    NoHeader, // 1
    BadHeader, // 2
    BadTolerance, // 3
    ManyGates(usize), // 4
    BadRecord(usize), // 5
    BadQubit(usize), // 6
    SameQubit(usize), // 7
    LargeEntry(usize), // 8
}

impl Fault {
    // The question's number, by a match and not by a cast: most hold an offset.
    pub fn number(self) -> u32
        ensures { result ≡ number_of self }
    {
        match self {
            Fault::NoHeader => 1,
            Fault::BadHeader => 2,
            Fault::BadTolerance => 3,
            Fault::ManyGates(_) => 4,
            Fault::BadRecord(_) => 5,
            Fault::BadQubit(_) => 6,
            Fault::SameQubit(_) => 7,
            Fault::LargeEntry(_) => 8,
        }
    }

    // The record's offset, 0 where the header is at fault: a number, as the format's answer has it.
    pub fn place(self) -> usize
        ensures { result ≡ place_of self }
    {
        match self {
            Fault::NoHeader | Fault::BadHeader | Fault::BadTolerance => 0,
            Fault::ManyGates(at)
            | Fault::BadRecord(at)
            | Fault::BadQubit(at)
            | Fault::SameQubit(at)
            | Fault::LargeEntry(at) => at,
        }
    }
}
