// The leaves: their names, the tags of their records, and how many words follow each.
use stored::MAX_RECORDS;
use stored::records::{AnyTag, numbered};
use stored::words::Plain;

#[derive(Clone, Copy)]
pub enum Leaf {
    Sqrt,
    Abs,
    Max,
    Min,
    Clamp,
    Matrix1q,
    Matrix2q,
    Mul2,
    Dag2,
    Kron,
    Mul4,
    Dag4,
    SwapQubits,
}

// Each leaf with its name and the words of its record, in the order of their tags, the first of which is 1.
pub const LEAVES: [(Leaf, &str, usize); 13] = [
    (Leaf::Sqrt, "sqrt", 2),
    (Leaf::Abs, "abs", 2),
    (Leaf::Max, "max", 3),
    (Leaf::Min, "min", 3),
    (Leaf::Clamp, "clamp", 4),
    (Leaf::Matrix1q, "matrix_1q", 9),
    (Leaf::Matrix2q, "matrix_2q", 33),
    (Leaf::Mul2, "mul2", 24),
    (Leaf::Dag2, "dag2", 16),
    (Leaf::Kron, "kron", 48),
    (Leaf::Mul4, "mul4", 96),
    (Leaf::Dag4, "dag4", 64),
    (Leaf::SwapQubits, "mat4_swap_qubits", 64),
];

impl AnyTag for Leaf {
    const RECORDS: usize = MAX_RECORDS;

    fn tag_of(word: u64) -> Option<Leaf> {
        let (leaf, _, _) = numbered(&LEAVES, 1, word)?;
        Some(leaf)
    }

    // No words follow what is no tag.
    fn length_of(word: u64, _words: Plain) -> usize {
        match numbered(&LEAVES, 1, word) {
            Some((_, _, words)) => words,
            None => 0,
        }
    }
}
