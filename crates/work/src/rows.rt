// What stands where among the floats of a record: specs/Rows.antt says more. The matrix has the first ones.
// Numbers of places in place of fields: the floats are one slice that the caller lends, so a record cannot be a struct.

// Of an item on two wires: its residual.
pub const RESIDUAL: usize = 32;

// Of a matchgate's record: its operation, from the count of the items until it is written.
pub const KEPT: usize = 40;

// Of record t, while a block is resolved: what cut t of its first tail takes, and of its second.
pub const FIRST_TAIL: usize = 40;

pub const SECOND_TAIL: usize = 48;
