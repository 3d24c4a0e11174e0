// The printing program's text: a tape is run, and its report and the Z of every qubit are written out.

#![tactic(auto)]

mod words; // a text in the making: words and decimal numbers
mod millionths; // Z in millionths
mod lines; // the lines
mod print; // the text of a tape

pub use print::print_tape;
pub use words::MAX_TEXT;
