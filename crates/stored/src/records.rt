// The records of a list: each is a tag and the words that follow it; the tag 0 ends the list.
ghost use Rattle.std.specs.Prelude.{◌≡◌, ◌+◌, ◌-◌, ◌≤◌, ◌↔◌, cond, eqb, Some, None, IfSome, IsTrue, MatchOption, length, drop, replicate, slice_index_or};
ghost use Rattle.std.specs.Iterator.{at_most};
ghost use Rattle.num.specs.Bits.{le64};
ghost use Rattle.stored.specs.declared.records.Taped.TheVariants.{Exact, Angled};

use crate::words::{Plain, Words, size};
use std::marker::{Model, PhantomData};

// The programs read a list of tapes or blocks to so many records.
pub const MAX_RECORDS: usize = 1024;

// A record of theirs has fewer words after the one that counts them.
const MANY: usize = 65000;

// The tags of a list that ends at the first word that is none.
pub trait Tag: Sized + Drop {
    // Nothing where the word is no tag, as 0. Not `TryFrom`: nobody would read its error.
    fn of(word: u64) -> Option<Self>;

    // How many words follow the tag, where they begin with these.
    fn length(&self, words: Plain) -> Option<usize>;
}

// The tags of a list that goes on after what is none: the programs read their lists so.
pub trait AnyTag: Sized + Drop {
    // The list is read to so many records.
    const RECORDS: usize;

    // Nothing where the word, which is not 0, is no tag.
    fn tag_of(word: u64) -> Option<Self>;

    // How many words follow this one, a tag or none, where they begin with these.
    fn length_of(word: u64, words: Plain) -> usize;
}

// How many words a record has that counts them in the word after its first `before`; no words where it counts too many.
pub fn counted(mut words: Plain, before: usize) -> usize
    requires { before ≤ 8 }
    ensures { result ≤ 65008 }
{
    for _ in 0..before {
        words.word();
    }
    let last = size(&mut words).unwrap_or(0);
    if last < MANY { last + before + 1 } else { 0 }
}

// What a tag stands for where the tags count up from the first, in the order of these; nothing where it is none of them.
// Who asks a table takes the field of the entry that it needs.
pub fn numbered<T: Copy>(these: &[T], first: u64, tag: u64) -> Option<T>
    ensures { MatchOption result (first ≤ tag → length these.now ≤ tag - first) (λ x. (first ≤ tag)
        × (x ≡ slice_index_or these.now (tag - first) x)) }
{
    let place = tag.checked_sub(first)?;
    these.get(place as usize).copied()
}

// Of a record with a tape, which begins with the tape's length and the number of words after this one. Another tag stands before the like.
#[derive(Clone, Copy, PartialEq)]
pub enum Taped {
    Exact,
    Angled,
}

impl Tag for Taped {
    fn of(word: u64) -> Option<Taped>
        ensures { result ≡ cond (eqb word 1) (Some Exact) (cond (eqb word 2) (Some Angled) None) }
    {
        match word {
            1 => Some(Taped::Exact),
            2 => Some(Taped::Angled),
            _ => None,
        }
    }

    // However many are counted.
    fn length(&self, mut words: Plain) -> Option<usize>
        ensures { IfSome result (λ many. many ≡ le64 (drop 8 words.entry.bytes.now) 0 + 2) }
    {
        words.word()?;
        let last = words.word()? as usize;
        last.checked_add(2)
    }
}

impl AnyTag for Taped {
    const RECORDS: usize = MAX_RECORDS;

    fn tag_of(word: u64) -> Option<Taped> {
        Taped::of(word)
    }

    fn length_of(_word: u64, words: Plain) -> usize {
        counted(words, 1)
    }
}

// The records that are left: what a caller sees are their bytes.
#[derive(Drop)]
pub struct Records<'a, T> {
    rest: Plain<'a>,
    tags: PhantomData<T>,
}

impl<'a, T> Model for Records<'a, T> {
    ghost use Rattle.std.specs.Prelude.{ℕ, List};

    ghost Value = { List ℕ };

    ghost view = { λ records. records.rest.bytes.now };
}

impl<'a, T: Tag> Records<'a, T> {
    pub fn new(list: &'a [u8]) -> Records<'a, T>
        ensures { result ≡ list.entry.now }
    {
        let rest = Plain { bytes: list };
        Records {
            rest,
            tags: PhantomData,
        }
    }

    // Whether the list ends here, with the tag 0 and nothing after it.
    pub fn is_at_end(&self) -> bool
        ensures { IsTrue result ↔ (self.now ≡ replicate 8 0) }
    {
        // how it ends is the same for all tags
        AnyRecords::<Taped>::new(self.rest.bytes).is_at_end()
    }
}

// Each record with its tag, up to the first that has none or is cut short.
impl<'a, T: Tag> Iterator for Records<'a, T> {
    type Item = (T, Plain<'a>);

    ghost remaining = { λ s. at_most (length s) };

    fn next(&mut self) -> Option<(T, Plain<'a>)> {
        let mut words = self.rest;
        let tag = T::of(words.word()?)?;
        let (record, rest) = words.split(tag.length(words)?)?;
        self.rest = rest;
        Some((tag, record))
    }
}

// The same of a list that goes on after what is no tag.
#[derive(Drop)]
pub struct AnyRecords<'a, T> {
    rest: Plain<'a>,
    left: usize, // records that are still to be read at most
    tags: PhantomData<T>,
}

impl<'a, T> Model for AnyRecords<'a, T> {
    ghost use Rattle.std.specs.Prelude.{ℕ, List};

    ghost Value = { List ℕ };

    ghost view = { λ records. records.rest.bytes.now };
}

impl<'a, T: AnyTag> AnyRecords<'a, T> {
    pub fn new(list: &'a [u8]) -> AnyRecords<'a, T>
        ensures { result ≡ list.entry.now }
    {
        AnyRecords {
            rest: Plain { bytes: list },
            left: T::RECORDS,
            tags: PhantomData,
        }
    }

    // Whether the list ends here, with the tag 0 and nothing after it.
    pub fn is_at_end(&self) -> bool
        ensures { IsTrue result ↔ (self.now ≡ replicate 8 0) }
    {
        self.rest.bytes == [0; 8].as_slice()
    }
}

// Each record with its tag, or with none: what that is and how long, each program says for itself, and passes over what it does not know.
impl<'a, T: AnyTag> Iterator for AnyRecords<'a, T> {
    type Item = (Option<T>, Plain<'a>);

    ghost remaining = { λ s. at_most (length s) };

    fn next(&mut self) -> Option<(Option<T>, Plain<'a>)> {
        self.left = self.left.checked_sub(1)?;
        let mut words = self.rest;
        let word = words.word()?;
        if word == 0 {
            return None;
        }
        let (record, rest) = words.split(T::length_of(word, words))?;
        self.rest = rest;
        Some((T::tag_of(word), record))
    }
}
