// The report of a tape in slices. They are C's, and may be longer than what is written into them.
ghost use Rattle.std.specs.Prelude.{◌≡◌, true, ◌+◌, ◌*◌, ◌≤◌, length};
ghost use Rattle.laws.specs.Bounds.{max_qubits};
ghost use Rattle.detect.specs.Told.{told};
ghost use Rattle.detect.specs.Words.{word_count, table_count};
ghost use Rattle.engine.specs.Reports.{laid, tables_written, has_report, room_of, Reports};

use detect::{REPORT_MEASURES, REPORT_TABLES, REPORT_WORDS, Refusal, Report, Told, report_words};
use laws::MAX_QUBITS;

// The slices for the answer, of these lengths, are long enough: a table has an entry for each of MAX_QUBITS.
#[tactic(auto, using(std::proofs::lemmas::Bool::Decides::nat_tests), unfolding(crate::specs::Reports::has_report))]
pub fn has_report(place: usize, report: usize, measures: usize, tables: usize) -> bool
    ensures { result ≡ has_report place report measures tables }
{
    place >= 1
        && report >= REPORT_WORDS
        && measures >= REPORT_MEASURES
        && tables >= REPORT_TABLES * MAX_QUBITS
}

// Words from the first place on.
fn put_words(x: &[u64; REPORT_WORDS], out: &mut [u64])
    requires { word_count ≤ length out.old }
    ensures { out.new ≡ laid word_count 0 x.now out.old }
{
    out[..REPORT_WORDS].copy_from_slice(x);
}

// A table from place a on. A function beside `put_words`: `laid` is of numbers, and a type parameter's values would be none.
#[tactic(auto, using(crate::proofs::Laid::copies))]
fn put_table(x: &[u16; MAX_QUBITS], out: &mut [u16], a: usize)
    requires { a + max_qubits ≤ length out.old }
    ensures { out.new ≡ laid max_qubits a x.now out.old }
{
    out[a..a + MAX_QUBITS].copy_from_slice(x);
}

// The wire on each mode, the path starts, the mode of each qubit.
#[tactic(auto, unfolding(crate::specs::Reports::tables_written))]
fn put_tables(r: Report, out: &mut [u16])
    requires { table_count * max_qubits ≤ length out.old }
    ensures { out.new ≡ tables_written r out.old }
{
    let order = r.order;
    let starts = r.starts;
    let modes = r.modes;
    put_table(&order, out, 0);
    put_table(&starts, out, MAX_QUBITS);
    put_table(&modes, out, 2 * MAX_QUBITS);
}

// Place and report are written, the number is returned.
#[tactic(auto, unfolding(crate::specs::Reports::has_report, crate::specs::Reports::words_written, crate::specs::Reports::measures_written))]
pub fn put_report(
    answer: Result<Report, Refusal>,
    place: &mut [u64],
    report: &mut [u64],
    measures: &mut [f64],
    tables: &mut [u16],
) -> u64
    requires { room_of place.old report.old measures.old tables.old ≡ true }
    ensures { Reports (told answer) place.old report.old measures.old tables.old result place.new
        report.new measures.new tables.new }
{
    let t = Told::from(answer);
    place[0] = t.place;
    put_words(&report_words(t.report), report);
    measures[0] = t.report.fraction;
    measures[1] = t.report.residual;
    put_tables(t.report, tables);
    t.number
}
