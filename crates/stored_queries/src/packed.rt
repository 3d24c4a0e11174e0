// The words of a record, packed into bytes: a byte below F0 is a number, F0 to F3 are common floats, F4 and a byte k are k + 1 zeros, F5 and eight
// bytes are a word.
ghost use Rattle.std.specs.Prelude.{◌≡◌, ◌+◌, ◌%◌, ◌^◌};
ghost use Rattle.std.specs.Option.{IsSome};

use stored::words::{Plain, Words};

const ZEROS: u8 = 0xf4;

const WORD: u8 = 0xf5;

#[derive(Clone, Copy)]
pub struct Packed<'a> {
    bytes: &'a [u8],
    zeros: u8, // that are still to come before the bytes
}

impl<'a> Packed<'a> {
    pub fn new(bytes: &'a [u8]) -> Packed<'a> {
        Packed { bytes, zeros: 0 }
    }

    fn byte(&mut self) -> Option<u8> {
        let (first, rest) = self.bytes.split_first()?;
        self.bytes = rest;
        Some(*first)
    }

    // The next eight bytes; where they are fewer, nothing, and nothing more.
    fn whole_word(&mut self) -> Option<u64> {
        let mut words = Plain { bytes: self.bytes };
        let word = words.word();
        self.bytes = match word {
            Some(_) => words.bytes,
            None => &[],
        };
        word
    }
}

impl<'a> Words for Packed<'a> {
    fn word(&mut self) -> Option<u64> {
        if 0 < self.zeros {
            self.zeros -= 1;
            return Some(0);
        }
        match self.byte()? {
            ZEROS => {
                self.zeros = self.byte()?;
                Some(0)
            }
            WORD => self.whole_word(),
            code => Some(coded(code)),
        }
    }
}

// Words that are passed over by their number: so many are there, after them come zeros, and after the last number the first again.
#[derive(Clone, Copy)]
pub struct Numbered<W> {
    all: W,
    rest: W,
    pub at: usize, // the number of the next word, at which `rest` stands if it is there
    pub many: usize,
}

impl<W: Words> Numbered<W> {
    pub fn new(words: W, many: usize) -> Numbered<W>
        ensures { (result.at ≡ 0) × (result.many ≡ many) }
    {
        Numbered {
            all: words,
            rest: words,
            at: 0,
            many,
        }
    }

    // On by so many words.
    pub fn pass(&mut self, count: usize)
        ensures { (self.new.at ≡ (self.old.at + count) % 2 ^ 64) × (self.new.many ≡ self.old.many) }
    {
        let to = self.at.wrapping_add(count);
        if to < self.at {
            self.rest = self.all;
            self.at = 0;
        }
        for _ in self.at.min(self.many)..to.min(self.many) {
            self.rest.word();
        }
        self.at = to;
    }
}

impl<W: Words> Words for Numbered<W> {
    fn word(&mut self) -> Option<u64>
        ensures { IsSome result }
    {
        if self.at < self.many {
            self.at += 1;
            return Some(self.rest.word().unwrap_or(0));
        }
        self.pass(1);
        Some(0)
    }
}

// What a byte stands for: 1.0, -1.0, -0.0 and 7.0 by their bits, or its own number.
fn coded(code: u8) -> u64 {
    match code {
        0xf0 => 0x3ff0000000000000,
        0xf1 => 0xbff0000000000000,
        0xf2 => 0x8000000000000000,
        0xf3 => 0x401c000000000000,
        number => u64::from(number),
    }
}
