// Replays the stored states and calls, and prints how many answers, slices and outputs agree, bit for bit,
// with what the proved functions compute. The operations of the last list go to the plain engine too. A record
// is a tag, the number of words that follow, and the words.

#![tactic(auto)]

mod calls; // calls.rt: the records of a list
mod held; // held.rt: the state that calls are on, and the plain engine's matrix beside it

use calls::Call;
use held::Held;
use reading::large_buffer;
use std::io;
use std::rt::Files;
use stored::Tally;
use stored::records::AnyRecords;
use stored::words::{Padded, Plain, Words};
use stored_queries::asked::{QUERIES, Query};

// The comparisons of a list.
#[derive(Clone, Copy, Default)]
struct Tallies {
    apply: Tally,
    plain: Tally, // `apply` of the plain engine
    states: Tally,
    matrices: Tally, // of the plain engine
    covariances: Tally, // the engine's beside these
    queries: [Tally; Query::COUNT], // by the case's number: no heap, so no map
}

impl Tallies {
    fn print(&self, rt: &impl Print) -> io::Result<()> {
        stored::print_tally(rt, "apply", self.apply)?;
        stored::print_tally(rt, "plain apply", self.plain)?;
        stored::print_tally(rt, "states", self.states)?;
        stored::print_tally(rt, "plain matrices", self.matrices)?;
        stored::print_tally(rt, "covariances beside them", self.covariances)?;
        for (query, name) in QUERIES {
            stored::print_tally(rt, name, self.queries[query as usize])?;
        }
        Ok(())
    }
}

// Whether a call on the state that is held agrees; nothing where that or the call is too large.
fn agrees(call: Call, words: &mut Padded<Plain>, held: &mut Option<Held>) -> Option<bool> {
    match (call, held) {
        (Call::Apply, Some(held)) => held.apply(words),
        (Call::Holds, Some(held)) => Some(held.holds(words)),
        (Call::Asked(query), Some(held)) => held.answers(query, words),
        _ => None,
    }
}

// Another state, or a call on the one that is held. What cannot be read does not agree.
fn step(call: Call, words: &mut Padded<Plain>, held: &mut Option<Held>, tallies: &mut Tallies) {
    if let Call::State = call {
        *held = Held::read(words);
        return;
    }
    let right = agrees(call, words, held) == Some(true);
    match call {
        Call::State | Call::Matrix => {}
        Call::Apply => tallies.apply.note(right),
        Call::Holds => tallies.states.note(right),
        Call::Asked(query) => tallies.queries[query as usize].note(right),
    }
}

// What the plain engine makes of the same: its answer to an operation; its matrix, and the engine's covariance beside that.
fn step_plain(
    call: Call,
    words: &mut Padded<Plain>,
    held: &mut Option<Held>,
    tallies: &mut Tallies,
) {
    match (call, held) {
        (Call::Apply, Some(held)) => tallies.plain.note(held.apply_plain(words) == Some(true)),
        (Call::Matrix, Some(held)) => {
            tallies.matrices.note(held.is_matrix(words) == Some(true));
            tallies.covariances.note(held.is_covariance() == Some(true));
        }
        _ => {}
    }
}

// `both`: its operations go to both engines.
fn replay(rt: &(impl Files + Print + Eprint), path: &str, both: bool) -> io::Result<()> {
    let mut space = large_buffer();
    let n = stored::named_list(rt, path.as_bytes(), &mut space)?;
    let mut held = Some(Held::none());
    let mut tallies = Tallies::default();
    for (call, record) in AnyRecords::<Call>::new(&space[..n]) {
        let Some(call) = call else {
            continue;
        };
        let mut words = Padded { words: record };
        words.word(); // how many there are
        let mut again = words;
        step(call, &mut words, &mut held, &mut tallies);
        if both {
            step_plain(call, &mut again, &mut held, &mut tallies);
        }
    }
    tallies.print(rt)
}

fn main(rt: HostRuntime) -> io::Result<()> {
    replay(&rt, "signs.bin", false)?;
    replay(&rt, "applies.bin", false)?;
    replay(&rt, "queries.bin", false)?;
    replay(&rt, "edges.bin", false)?;
    replay(&rt, "samples.bin", false)?;
    replay(&rt, "stops.bin", false)?;
    replay(&rt, "plain.bin", true)
}
