// The sizes of a record. Question 9 asks for so many floats and marks for each gate and each qubit.

pub const RECORD_FLOATS: usize = 64;

pub const RECORD_MARKS: usize = 32;
