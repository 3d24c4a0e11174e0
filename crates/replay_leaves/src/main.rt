// Replays the stored results of the leaves and prints how many agree, bit for bit, with what the
// proved functions compute. A record is a tag, operands and the wanted result.

#![tactic(auto)]

mod leaf; // leaf.rt: the leaves, by the tags of their records

use gate::{Mat2, Mat4, Matrix};
use leaf::{LEAVES, Leaf};
use reading::large_buffer;
use std::io;
use std::rt::Files;
use stored::Tally;
use stored::records::AnyRecords;
use stored::values::Stored;
use stored::words::{Plain, size};

// Whether the value after the next one is what a function makes of that.
fn one<A: Stored, B: Stored, F: FnOnce(A) -> B>(f: F, words: &mut Plain) -> Option<bool>
    requires { F.IsAlwaysCallable f }
{
    let a = A::read(words)?;
    Some(f(a).agrees(words))
}

// The same, where the function takes two.
fn two<A: Stored, B: Stored, F: FnOnce(A, A) -> B>(f: F, words: &mut Plain) -> Option<bool>
    requires { F.IsAlwaysCallable f }
{
    let a = A::read(words)?;
    let b = A::read(words)?;
    Some(f(a, b).agrees(words))
}

fn clamp_agrees(words: &mut Plain) -> Option<bool> {
    let x = f64::read(words)?;
    two(|low, high| num::clamp(x, low, high), words)
}

// A code of a one-qubit gate, and its matrix. Two functions, as in named: the codes' bounds differ.
fn matrix_1q_agrees(words: &mut Plain) -> Option<bool> {
    let code = size(words)?;
    if code < 9 {
        return Some(named::matrix_1q(code).agrees(words));
    }
    None
}

fn matrix_2q_agrees(words: &mut Plain) -> Option<bool> {
    let code = size(words)?;
    if 16 <= code && code < 21 {
        return Some(named::matrix_2q(code).agrees(words));
    }
    None
}

// Whether a record agrees; nothing where it cannot be read. (A closure in place of a function's name: the name of another crate's function gets no proof.)
fn agrees(leaf: Leaf, words: &mut Plain) -> Option<bool> {
    match leaf {
        Leaf::Sqrt => one(|a| num::sqrt(a), words),
        Leaf::Abs => one(|a| num::abs(a), words),
        Leaf::Max => two(|a, b| num::max(a, b), words),
        Leaf::Min => two(|a, b| num::min(a, b), words),
        Leaf::Clamp => clamp_agrees(words),
        Leaf::Matrix1q => matrix_1q_agrees(words),
        Leaf::Matrix2q => matrix_2q_agrees(words),
        Leaf::Mul2 => two(|a: Mat2, b: Mat2| a * b, words),
        Leaf::Dag2 => one(|a: Mat2| a.adjoint(), words),
        Leaf::Kron => two(|a, b| gate::kron(a, b), words),
        Leaf::Mul4 => two(|a: Mat4, b: Mat4| a * b, words),
        Leaf::Dag4 => one(|a: Mat4| a.adjoint(), words),
        Leaf::SwapQubits => one(|a| gate::mat4_swap_qubits(a), words),
    }
}

fn replay(rt: &(impl Files + Print + Eprint), path: &str) -> io::Result<()> {
    let mut space = large_buffer();
    let n = stored::read_list(rt, path.as_bytes(), &mut space)?;
    let mut records = AnyRecords::<Leaf>::new(&space[..n]);
    // beside the table of names, by the case's number: no heap, so no map
    let mut tallies = [Tally::default(); LEAVES.len()];
    for (leaf, mut words) in &mut records {
        if let Some(leaf) = leaf {
            tallies[leaf as usize].note(agrees(leaf, &mut words) == Some(true));
        }
    }
    for (leaf, name, _) in LEAVES {
        stored::print_tally(rt, name, tallies[leaf as usize])?;
    }
    if records.is_at_end() {
        println!(rt; "end")?;
    }
    Ok(())
}

fn main(rt: HostRuntime) -> io::Result<()> {
    replay(&rt, "leaves.bin")?;
    replay(&rt, "products.bin")
}
