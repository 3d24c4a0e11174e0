// What words stand for. A float is stored by its bits, every NaN by one pattern; a matrix row by row, real before imaginary.
ghost use Rattle.std.specs.Prelude.{ℕ, ◌≡◌, ◌+◌, ◌<◌, ◌↔◌, IfErr, IsTrue, All, length, take, drop};
ghost use Rattle.num.specs.Bits.{bits_of};

use crate::words::Words;
use gate::{Complex, Mat2, Mat4, Matrix};

// What one word stands for. Not From and TryFrom: a float is stored by its bits.
pub trait Word: Copy {
    // The word that stands for a value.
    ghost word_of: { Self → ℕ };

    // What a word stands for; nothing where it is too large.
    fn of(word: u64) -> Option<Self>;

    fn word(self) -> u64
        ensures { result ≡ word_of self };
}

impl Word for u64 {
    ghost word_of = { λ x. x };

    fn of(word: u64) -> Option<u64> {
        Some(word)
    }

    fn word(self) -> u64 {
        self
    }
}

impl Word for f64 {
    ghost word_of = { bits_of };

    fn of(word: u64) -> Option<f64> {
        Some(num::from_bits(word))
    }

    fn word(self) -> u64 {
        num::to_bits(self)
    }
}

// An impl for each type, here and for matrices: a float is read by its bits, an integer if it fits.
impl Word for u32 {
    ghost word_of = { λ x. x };

    fn of(word: u64) -> Option<u32> {
        u32::try_from(word).ok()
    }

    fn word(self) -> u64 {
        u64::from(self)
    }
}

// Of a larger word the lowest bits are read, here and below.
impl Word for u16 {
    ghost word_of = { λ x. x };

    fn of(word: u64) -> Option<u16> {
        Some((word % 0x10000) as u16)
    }

    fn word(self) -> u64 {
        u64::from(self)
    }
}

impl Word for u8 {
    ghost word_of = { λ x. x };

    fn of(word: u64) -> Option<u8> {
        Some((word % 0x100) as u8)
    }

    fn word(self) -> u64 {
        u64::from(self)
    }
}

impl Word for usize {
    ghost word_of = { λ x. x };

    fn of(word: u64) -> Option<usize> {
        usize::try_from(word).ok()
    }

    fn word(self) -> u64 {
        self as u64 // a cast, since the library has no `From` here
    }
}

// What some words stand for.
pub trait Stored: Copy {
    // The next value of the words; nothing where they are too few.
    fn read<W: Words>(words: &mut W) -> Option<Self>;

    // Whether the next value of the words, which is passed over, is this one bit for bit.
    fn agrees<W: Words>(self, words: &mut W) -> bool;
}

impl Stored for f64 {
    fn read<W: Words>(words: &mut W) -> Option<f64> {
        f64::of(words.word()?)
    }

    fn agrees<W: Words>(self, words: &mut W) -> bool {
        words.word() == Some(self.word())
    }
}

impl Stored for Complex {
    fn read<W: Words>(words: &mut W) -> Option<Complex> {
        let re = f64::read(words)?;
        let im = f64::read(words)?;
        Some(Complex { re, im })
    }

    fn agrees<W: Words>(self, words: &mut W) -> bool {
        compare(&[self.re, self.im], words).is_ok()
    }
}

impl Stored for Mat2 {
    fn read<W: Words>(words: &mut W) -> Option<Mat2> {
        matrix(words)
    }

    fn agrees<W: Words>(self, words: &mut W) -> bool {
        matrix_agrees(self, words)
    }
}

impl Stored for Mat4 {
    fn read<W: Words>(words: &mut W) -> Option<Mat4> {
        matrix(words)
    }

    fn agrees<W: Words>(self, words: &mut W) -> bool {
        matrix_agrees(self, words)
    }
}

// The array is as long as the larger matrix is: no array takes its length from a type parameter.
fn matrix<M: Matrix, W: Words>(words: &mut W) -> Option<M> {
    let mut floats = [0.0; 32];
    for float in &mut floats[..M::FLOATS] {
        *float = f64::read(words)?;
    }
    Some(M::load(&floats, 0))
}

fn matrix_agrees<M: Matrix, W: Words>(m: M, words: &mut W) -> bool {
    let mut floats = [0.0; 32];
    m.store(&mut floats, 0);
    compare(&floats[..M::FLOATS], words).is_ok()
}

// What the next N words stand for; nothing where they are too few.
pub fn list<T: Word, const N: usize, W: Words>(words: &mut W) -> Option<[T; N]> {
    let mut list = [T::of(0)?; N];
    for value in list.iter_mut() {
        *value = T::of(words.word()?)?;
    }
    Some(list)
}

// Where a slice first differs from the words, of which as many are passed over.
pub fn compare<T: Word, W: Words>(values: &[T], words: &mut W) -> Result<(), usize>
    ensures { IfErr result (λ place. place < length values.now) }
{
    let mut first = Ok(());
    for (place, value) in values.iter().enumerate() {
        if words.word() != Some(value.word()) {
            first = first.and(Err(place));
        }
    }
    first
}

// Where numbers and then floats first differ from the words: the places of the floats count on from those of the numbers.
pub fn compare_both<W: Words>(numbers: &[u64], floats: &[f64], words: &mut W) -> Result<(), usize>
    ensures { IfErr result (λ place. place < length numbers.now + length floats.now) }
{
    let first = compare(numbers, words);
    match compare(floats, words) {
        Err(place) => first.and(Err(numbers.len() + place)),
        Ok(()) => first,
    }
}

// Where a table first differs from its first n entries, which the words are; the others are 0.
pub fn compare_table<W: Words>(table: &[u16], n: usize, words: &mut W) -> Result<(), usize>
    ensures { IfErr result (λ place. place < length table.now) }
{
    let (listed, others) = table.split_at(n.min(table.len()));
    let first = compare(listed, words);
    match others.iter().position(|entry| *entry != 0) {
        Some(place) => first.and(Err(listed.len() + place)),
        None => first,
    }
}

// Whether each value is one for which the word stands.
fn all_are<T: Word>(values: &[T], word: u64) -> bool
    ensures { IsTrue result ↔ All (λ x. T.word_of x ≡ word) values.now }
{
    values.iter().all(|x| x.word() == word)
}

// Whether the first places of a lent slice, so many, are zero, and the others as before the call.
#[tactic(auto, using(std::proofs::lemmas::List::take_all, std::proofs::lemmas::List::drop_all))]
pub fn is_cleared<T: Word>(lent: &[T], zeros: usize, before: T) -> bool
    ensures { IsTrue result ↔ (All (λ x. T.word_of x ≡ 0) (take zeros lent.now)
        × All (λ x. T.word_of x ≡ T.word_of before) (drop zeros lent.now)) }
{
    match lent.split_at_checked(zeros) {
        Some((cleared, kept)) => all_are(cleared, 0) && all_are(kept, before.word()),
        None => all_are(lent, 0),
    }
}
