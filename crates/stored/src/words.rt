// The words of a record, read one after the other: each is eight bytes, the lowest first.
ghost use Rattle.std.specs.Prelude.{◌≡◌, ◌*◌, ◌<◌, ◌≤◌, length, take, drop, IfSome, MatchOption};
ghost use Rattle.std.specs.Option.{IsSome};
ghost use Rattle.num.specs.Bits.{le64};

// Where words come from. A copy reads ahead.
pub trait Words: Copy {
    // The next word; nothing after the last.
    fn word(&mut self) -> Option<u64>;
}

// A word as a length, a place or a qubit.
pub fn size<W: Words>(words: &mut W) -> Option<usize> {
    Some(words.word()? as usize)
}

// A stored tape has at most so many bytes.
const MAX_TAPE: usize = 60000;

// Words that go on with zeros after the last.
#[derive(Clone, Copy)]
pub struct Padded<W> {
    pub words: W,
}

impl<W: Words> Words for Padded<W> {
    fn word(&mut self) -> Option<u64>
        ensures { IsSome result }
    {
        Some(self.words.word().unwrap_or(0))
    }
}

// Bytes that are words.
#[derive(Clone, Copy)]
pub struct Plain<'a> {
    pub bytes: &'a [u8], // that are left
}

impl<'a> Plain<'a> {
    // So many words, and those after them; nothing where they are too few.
    pub fn split(self, words: usize) -> Option<(Plain<'a>, Plain<'a>)>
        ensures { IfSome result (λ p. (8 * words ≤ length self.entry.bytes.now)
            × (p.0.bytes.now ≡ take (8 * words) self.entry.bytes.now)
            × (p.1.bytes.now ≡ drop (8 * words) self.entry.bytes.now)) }
    {
        let (first, rest) = self.bytes.split_at_checked(words.checked_mul(8)?)?;
        Some((Plain { bytes: first }, Plain { bytes: rest }))
    }

    // The tape of a record that begins with the tape's length and the number of words after this one. It fills whole words. Nothing where it is too long.
    pub fn tape(&mut self) -> Option<&'a [u8]>
        ensures { IfSome result (λ tape. length tape.now ≤ 60000) }
    {
        let size = size(self)?;
        self.word()?;
        if size > MAX_TAPE {
            return None;
        }
        let (tape, rest) = self.split(size.div_ceil(8))?;
        *self = rest;
        tape.bytes.get(..size)
    }
}

impl<'a> Words for Plain<'a> {
    fn word(&mut self) -> Option<u64>
        ensures { MatchOption result (length self.old.bytes.now < 8) (λ w. (8 ≤ length self.old.bytes.now)
            × (w ≡ le64 self.old.bytes.now 0) × (self.new.bytes.now ≡ drop 8 self.old.bytes.now)) }
    {
        let bytes = self.bytes;
        let (_, rest) = bytes.split_at_checked(8)?;
        self.bytes = rest;
        Some(num::u64_at(bytes, 0))
    }
}
