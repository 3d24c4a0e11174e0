// How long the slices are that a stored call is lent: enough for the largest tape and the largest state, and a little more, since places behind what
// a call needs show that it touches none of them.
use laws::{MAX_QUBITS, OP_PLACES};
use tape::MAX_GATES;
use work::{RECORD_FLOATS, RECORD_MARKS};

const SPARE: usize = 64;

const RECORDS: usize = MAX_GATES + MAX_QUBITS;

const DIM: usize = 2 * MAX_QUBITS;

// Work of a tape.
pub const FLOATS: usize = RECORD_FLOATS * RECORDS + SPARE;

pub const MARKS: usize = RECORD_MARKS * RECORDS + SPARE;

// Operations of a tape.
pub const PLACES: usize = OP_PLACES * MAX_GATES + SPARE;

// A state, and the work of a query on it.
pub const STATE: usize = DIM * DIM + DIM + SPARE;

pub const WORK: usize = DIM * DIM + SPARE;
