// A block and what is computed of it, beside the words of its record. Words and tallies are passed one by one: the ones are read, the others counted up, and
// nothing is true of the pair.
use crate::tallies::Tallies;
use classify::Class2;
use gate::{Complex, Mat2, Mat4, Matrix, Row4};
use real::{Map2, Map4, Real4};
use stored::MAX_RECORDS;
use stored::records::{AnyTag, numbered};
use stored::values::{Stored, compare, list};
use stored::words::{Plain, Words};

// What a record is about, by its tag.
#[derive(Clone, Copy)]
pub enum Block {
    One,
    Two,
    Phases,
}

// Each with the words of its record, in the order of their tags, the first of which is 1.
const BLOCKS: [(Block, usize); 3] = [(Block::One, 14), (Block::Two, 71), (Block::Phases, 26)];

impl AnyTag for Block {
    const RECORDS: usize = MAX_RECORDS;

    fn tag_of(word: u64) -> Option<Block> {
        let (block, _) = numbered(&BLOCKS, 1, word)?;
        Some(block)
    }

    // No words follow what is no tag.
    fn length_of(word: u64, _words: Plain) -> usize {
        match numbered(&BLOCKS, 1, word) {
            Some((_, words)) => words,
            None => 0,
        }
    }
}

impl Block {
    // Notes each comparison; nothing where the words are too few.
    pub fn compare(self, words: &mut Plain, tallies: &mut Tallies) -> Option<()> {
        match self {
            Block::One => one(words, tallies),
            Block::Two => two(words, tallies),
            Block::Phases => phases(words, tallies),
        }
    }
}

// The tolerances of the classes.
const TOLERANCES: [f64; 5] = [0.0, -0.0, 1e-12, 1e-10, 0.001];

// What stored lists have for the original's class where it is not compared.
const NOT_COMPARED: u64 = 8;

// A test is stored as 1 or 0.
fn is(test: bool, words: &mut Plain) -> bool {
    words.word() == Some(u64::from(test))
}

// Two functions: the entries of a map are fields.
fn map2_agrees(q: Map2, words: &mut Plain) -> bool {
    compare(&[q.r0.x0, q.r0.x1, q.r1.x0, q.r1.x1], words).is_ok()
}

fn row_agrees(r: Real4, words: &mut Plain) -> bool {
    compare(&[r.x0, r.x1, r.x2, r.x3], words).is_ok()
}

fn map4_agrees(q: Map4, words: &mut Plain) -> bool {
    let upper = row_agrees(q.r0, words) & row_agrees(q.r1, words);
    let lower = row_agrees(q.r2, words) & row_agrees(q.r3, words);
    upper && lower
}

// A block of one qubit: matrix, map, residual, whether the map commutes with the particle number.
fn one(words: &mut Plain, tallies: &mut Tallies) -> Option<()> {
    let m = majorana::majorana_map1(Mat2::read(words)?);
    let map = map2_agrees(m.q, words);
    let residual = m.residual.agrees(words);
    tallies.map1.note(map && residual);
    tallies.commutes.note(is(majorana::commutes_j2(m.q), words));
    Some(())
}

// A block of two qubits: matrix, map, residual, whether the map commutes with the particle number, off-diagonal norm; then ten classes, of five
// tolerances without relabelling and with it.
fn two(words: &mut Plain, tallies: &mut Tallies) -> Option<()> {
    let u = Mat4::read(words)?;
    let m = majorana::majorana_map2(u);
    let map = map4_agrees(m.q, words);
    let residual = m.residual.agrees(words);
    tallies.map2.note(map && residual);
    tallies
        .conserves
        .note(is(majorana::number_conserving4(m.q), words));
    tallies.offdiag.note(classify::offdiag4(u).agrees(words));
    classes(u, false, words, tallies)?;
    classes(u, true, words, tallies)
}

fn classes(u: Mat4, relabel: bool, words: &mut Plain, tallies: &mut Tallies) -> Option<()> {
    for tolerance in TOLERANCES {
        class(
            u,
            classify::classify2(relabel, tolerance, u),
            words,
            tallies,
        )?;
    }
    Some(())
}

// A class of a block: a word with the rule's class, and 16 times the original's; the residual.
fn class(u: Mat4, c: Class2, words: &mut Plain, tallies: &mut Tallies) -> Option<()> {
    let word = words.word()?;
    let code = u64::from(c.code());
    let (rule, original) = (word % 16, word / 16);
    tallies.rule.note(rule == code);
    if original != NOT_COMPARED {
        tallies.original.note(original == code % 8);
    }
    tallies.residual.note(c.kind.residual().agrees(words));
    let v = if c.swap { named::SWAP * u } else { u };
    tallies.applied.note(bits(v) == bits(c.v));
    Some(())
}

fn bits(m: Mat4) -> [u64; 32] {
    let mut floats = [0.0; 32];
    m.store(&mut floats, 0);
    floats.map(|x| num::to_bits(x))
}

// A diagonal: entries, p_a, p_b, w, the unit of w, and the rotations of the two wires.
fn phases(words: &mut Plain, tallies: &mut Tallies) -> Option<()> {
    let u = diagonal(words)?;
    let a = classify::phase_a(u);
    let b = classify::phase_b(u);
    let w = classify::interaction(u);
    let wires = a.agrees(words) & b.agrees(words);
    let both = w.agrees(words);
    tallies.phase.note(wires && both);
    tallies.unit.note(classify::unit(w).agrees(words));
    tallies
        .rotation
        .note(rotation_agrees(a, words)? & rotation_agrees(b, words)?);
    Some(())
}

fn diagonal(words: &mut Plain) -> Option<Mat4> {
    let a = Complex::read(words)?;
    let b = Complex::read(words)?;
    let c = Complex::read(words)?;
    let d = Complex::read(words)?;
    Some(Mat4 {
        r0: Row4 {
            c0: a,
            ..Row4::ZERO
        },
        r1: Row4 {
            c1: b,
            ..Row4::ZERO
        },
        r2: Row4 {
            c2: c,
            ..Row4::ZERO
        },
        r3: Row4 {
            c3: d,
            ..Row4::ZERO
        },
    })
}

// Whether there is a rotation, and its map; four words stand in place of none.
fn rotation_agrees(p: Complex, words: &mut Plain) -> Option<bool> {
    let rotation = classify::rotation_of(p);
    let turns = is(rotation.is_some(), words);
    let Some(q) = rotation else {
        let _none: [f64; 4] = list(words)?;
        return Some(turns);
    };
    Some(map2_agrees(q, words) && turns)
}
