// The report as plain numbers.
ghost use Rattle.std.specs.Prelude.{◌≡◌};
ghost use Rattle.detect.specs.Words.{ordering_word, report_words};

use crate::report::Report;
use order::Ordering;

// What a report has beside its number and place: words, floats, and tables of MAX_QUBITS entries each.
pub const REPORT_WORDS: usize = 14;

pub const REPORT_MEASURES: usize = 2;

pub const REPORT_TABLES: usize = 3;

// The ordering as a word. No `From` in crate order: its number is a word of the report, which is defined here.
fn ordering_word(o: Ordering) -> u64
    ensures { result ≡ ordering_word o }
{
    o as u64
}

// The words of a report: counts first, then the flags, then the ordering.
pub fn report_words(r: Report) -> [u64; REPORT_WORDS]
    ensures { result ≡ report_words r }
{
    [
        r.n as u64,
        u64::from(r.blocks),
        u64::from(r.two),
        u64::from(r.gaussian),
        u64::from(r.bad),
        u64::from(r.nonadjacent),
        u64::from(r.interactions),
        r.swaps as u64,
        u64::from(r.operations),
        u64::from(r.conserving),
        u64::from(r.exact),
        u64::from(r.free),
        u64::from(r.angled),
        ordering_word(r.ordering),
    ]
}
