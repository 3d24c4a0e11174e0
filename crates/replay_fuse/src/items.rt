// The items of the lent work beside those of a record. An item is a word, kind + 256 a + 65,536 b with its wires, and on an exact tape the residual of a
// two-qubit item and the matrix.
ghost use Rattle.work.specs.Lent.{Has};

use crate::tallies::Tallies;
use gate::{Mat2, Mat4};
use stored::records::Taped;
use stored::values::Stored;
use stored::words::{Plain, Words};
use work::{A, B, Kind, RESIDUAL, Work};

// The items of all records, up to the first that the words do not have; no more may be stored.
pub fn compare(taped: Taped, work: &Work, words: &mut Plain, tallies: &mut Tallies) {
    for k in 0..work.gates() + work.slots() {
        if let Some(kind) = work.item_kind(k) {
            if words.bytes.len() < size(taped, kind) {
                return tallies.other_items();
            }
            tallies
                .kinds
                .note(words.word() == Some(head(work, k, kind)));
            if taped == Taped::Exact {
                matrix(kind, work, k, words, tallies);
            }
        }
    }
    if !words.bytes.is_empty() {
        tallies.other_items();
    }
}

// How many bytes an item has in the list.
fn size(taped: Taped, kind: Kind) -> usize {
    match (taped, kind) {
        (Taped::Angled, _) | (_, Kind::OpaqueItem) => 8,
        (Taped::Exact, Kind::OneItem) => 8 * 9,
        (Taped::Exact, _) => 8 * 34,
    }
}

// Kind and wires of an item; of an opaque block and of a remainder the second wire is 0.
fn head(work: &Work, k: usize, kind: Kind) -> u64
    requires { Has work.now k }
{
    let a = u64::from(work.mark(k, A));
    let b = match kind {
        Kind::OneItem => 0,
        _ => u64::from(work.mark(k, B)),
    };
    u64::from(u32::from(kind)) + 256 * a + 65536 * b
}

fn matrix(kind: Kind, work: &Work, k: usize, words: &mut Plain, tallies: &mut Tallies)
    requires { Has work.now k }
{
    match kind {
        Kind::OneItem => tallies.matrices.note(work.matrix::<Mat2>(k).agrees(words)),
        Kind::OpaqueItem => {}
        _ => {
            tallies
                .residuals
                .note(work.float(k, RESIDUAL).agrees(words));
            tallies.matrices.note(work.matrix::<Mat4>(k).agrees(words));
        }
    }
}
