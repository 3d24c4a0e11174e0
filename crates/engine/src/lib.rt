// The engine as a static library, for C and Rust: every call for users, on numbers and slices (include/jozkeral.h). Each export asks for room for
// its answer, makes the call, and lays the answer out: it returns the number of the question whose answer is no, or 0; the place, the value or the
// report goes to slices of the caller's. No export has a `requires`. Slices and counts stand one by one in each export, as the C interface has them.

#![tactic(auto)]

mod said; // the answers of the state calls in slices
mod reports; // the report in slices
mod tapes; // calls on a tape
mod states; // calls on a state
