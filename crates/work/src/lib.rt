// The layout of the lent work: for each gate and each slot a record of floats and marks. Every number of the layout has its name here, and the work is one
// value, by which records are read and written.

#![tactic(auto)]

mod columns; // what each column of the marks holds
mod kinds; // the kind of a record
mod lent; // the lent work as one value
mod rows; // what the floats of a record hold
mod sizes; // how many floats and marks a record has

pub use columns::{
    A, AT, B, C, CONTENT, EDGE_HI, EDGE_LO, HEAD, HI, KIND, LAB, LO, NEXT, ORDER, POS, START,
    WEIGHT,
};
pub use kinds::Kind;
pub use lent::Work;
pub use rows::{FIRST_TAIL, KEPT, RESIDUAL, SECOND_TAIL};
pub use sizes::{RECORD_FLOATS, RECORD_MARKS};
