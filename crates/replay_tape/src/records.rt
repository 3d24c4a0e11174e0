// The records of a list: a tape, and answers to the tape before them. Beside `stored::words`: a word is two bytes here, and a tape does not fill whole words.

// A list, from the record that is read next.
#[derive(Clone, Copy)]
pub struct List<'a> {
    bytes: &'a [u8],
}

// The answer to the check of so many bytes of the tape: the refusal or the numbers of gates and labels,
// and where one label's bytes start and end. Word by word as the list has it: a refusal's number is 0 where there is none.
#[derive(Clone, Copy)]
pub struct Check {
    pub length: usize,
    pub number: usize,
    pub place: usize,
    pub gates: usize,
    pub labels: usize,
    pub label: usize,
    pub start: usize,
    pub end: usize,
}

#[derive(Clone, Copy)]
pub enum Record<'a> {
    // the list from the tape's first byte on: each answer says how many bytes it is to
    Tape(&'a [u8]),
    Check(Check),
    // the gates of so many bytes of the tape
    Gates { length: usize, stored: List<'a> },
}

impl<'a> List<'a> {
    pub fn new(bytes: &'a [u8]) -> List<'a> {
        List { bytes }
    }

    pub fn is_empty(self) -> bool {
        self.bytes.is_empty()
    }

    // Whether the list ends here, with the tag of no record.
    pub fn is_at_end(self) -> bool {
        self.bytes.len() == 2
    }

    fn part(&mut self, n: usize) -> Option<&'a [u8]> {
        let (part, rest) = self.bytes.split_at_checked(n)?;
        self.bytes = rest;
        Some(part)
    }

    pub fn word(&mut self) -> Option<usize> {
        let (word, rest) = self.bytes.split_at_checked(2)?;
        self.bytes = rest;
        Some(num::u16_at(word, 0) as usize)
    }

    fn check(&mut self) -> Option<Check> {
        Some(Check {
            length: self.word()?,
            number: self.word()?,
            place: self.word()?,
            gates: self.word()?,
            labels: self.word()?,
            label: self.word()?,
            start: self.word()?,
            end: self.word()?,
        })
    }

    // The next record, if one is there and whole.
    pub fn record(&mut self) -> Option<Record<'a>> {
        let mut ahead = *self;
        let record = match ahead.word()? {
            1 => {
                let size = ahead.word()?;
                let from = ahead.bytes;
                ahead.part(size)?;
                Record::Tape(from)
            }
            2 => Record::Check(ahead.check()?),
            3 => {
                let length = ahead.word()?;
                let size = ahead.word()?;
                Record::Gates {
                    length,
                    stored: List::new(ahead.part(size)?),
                }
            }
            _ => return None,
        };
        *self = ahead;
        Some(record)
    }
}
