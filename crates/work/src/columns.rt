// What each column of the marks holds: specs/Columns.antt says more.
// Numbers of columns in place of fields: the marks are one slice of words that the caller lends, so a record cannot be a struct.

// Of a gate's record: its kind and its slots, later the item's kind and wires.
pub const KIND: usize = 0;

pub const A: usize = 1;

pub const B: usize = 2;

pub const C: usize = 3;

// Of a qubit its slot; of a slot the wire in it.
pub const LAB: usize = 4;

pub const CONTENT: usize = 5;

// Of a wire: the ends of its path, and its place there.
pub const LO: usize = 8;

pub const HI: usize = 9;

pub const AT: usize = 10;

// Of an edge: the edge before it with the same smaller wire.
pub const NEXT: usize = 11;

// Of an edge: its wires and its weight.
pub const EDGE_LO: usize = 12;

pub const EDGE_HI: usize = 13;

pub const WEIGHT: usize = 14;

// Of a wire: the last edge with this smaller wire.
pub const HEAD: usize = 15;

// Of a mode its wire; of a wire its mode; of a mode whether a path starts there.
pub const ORDER: usize = 16;

pub const POS: usize = 17;

pub const START: usize = 18;
