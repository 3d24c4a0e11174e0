// The detector's end (`compile` of the original's detect.rs, from the items on): the report, the
// operations, and the public `compile`, by the questions 1 to 10.

#![tactic(auto)]

mod places; // the places of an operation
mod count; // each item's share of the report, and their sum
mod emit; // the operations
mod tables; // order, path starts and modes as tables
mod report; // the report
mod words; // the report as plain numbers
mod refusal; // which question has no for an answer
mod told; // an answer as plain numbers
mod program; // the report of an accepted tape
mod lending; // question 9
mod questions; // the questions 1 to 10

pub use places::OP_PLACES;
pub use questions::{compile, compile_judged};
pub use refusal::Refusal;
pub use report::Report;
pub use told::Told;
pub use words::{REPORT_MEASURES, REPORT_TABLES, REPORT_WORDS, report_words};
