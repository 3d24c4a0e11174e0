// What no clause says: from which words a query is read, and that its answer and what it leaves are compared with them.
use super::asked::{Query, State, Widths};
use super::packed::Packed;

// One qubit, in |0>.
const STATE: State = State {
    n: 1,
    entries: &[0.0, 1.0, -1.0, 0.0, 1.0, 1.0],
    modes: &[0],
};

const WORDS: Widths = Widths {
    qubits: 1,
    draws: 0,
    output: 2,
};

// Of a product of qubit 0 twice: the list, work's length and zeros, number, place, 1.0 as one byte, no row.
const TWICE: [u8; 9] = [2, 0, 0, 0, 0, 0, 0, 0xf0, 0];

// Of a sample without shots, in four places of work, which are zero then: shots, draws, words of output; work; number, place, 0.0; the output, as it was.
const NO_SHOTS: [u8; 11] = [0, 0, 3, 4, 4, 0, 0, 0, 7, 7, 7];

#[test]
fn agrees_in_work_of_its_own(rt: HostRuntime) {
    let mut words = Packed::new(&TWICE);
    assert_eq!(rt;
        Query::Product.agrees(STATE, Widths::default(), &mut words),
        Some(true)
    );
    let mut other = TWICE;
    other[7] = 0xf1;
    let mut words = Packed::new(&other);
    assert_eq!(rt;
        Query::Product.agrees(STATE, Widths::default(), &mut words),
        Some(false)
    );
    let mut words = Packed::new(&TWICE[..8]);
    assert_eq!(rt;
        Query::Product.agrees(STATE, Widths::default(), &mut words),
        None
    );
}

#[test]
fn takes_more_entries_than_words_are_named(rt: HostRuntime) {
    let mut words = Packed::new(&TWICE);
    assert_eq!(rt; Query::Product.agrees(STATE, WORDS, &mut words), Some(true));
    let mut words = Packed::new(&NO_SHOTS);
    assert_eq!(rt; Query::Sample.agrees(STATE, WORDS, &mut words), Some(true));
}

#[test]
fn refuses_more_in_lent_work(rt: HostRuntime) {
    let mut work = [7.0; 4];
    let mut words = Packed::new(&TWICE);
    assert_eq!(rt;
        Query::Product.agrees_in(STATE, WORDS, &mut work, &mut words),
        None
    );
    let mut words = Packed::new(&NO_SHOTS);
    assert_eq!(rt;
        Query::Sample.agrees_in(STATE, WORDS, &mut work, &mut words),
        None
    );
    let mut words = Packed::new(&NO_SHOTS);
    assert_eq!(rt;
        Query::Sample.agrees_in(STATE, Widths::default(), &mut work, &mut words),
        Some(true)
    );
}
