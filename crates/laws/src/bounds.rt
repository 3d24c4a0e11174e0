// The bounds that more than one crate knows, each named once. specs/Bounds.antt has the sentences that name them.

// Qubits of a tape and of a state at most: questions 2 and 16.
pub const MAX_QUBITS: usize = 128;

// Places of an operation: questions 10 and 17.
pub const OP_PLACES: usize = 18;
