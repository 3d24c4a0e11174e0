// The report.
ghost use Rattle.std.specs.Prelude.{◌≡◌};
ghost use Rattle.detect.specs.Report.{fraction_of, written_count, exact_of, report_of};

use crate::count::Counts;
use crate::tables::Tables;
use laws::MAX_QUBITS;
use order::Ordering;
use resolve::Tally;

// What the detector found. The tables have an entry for each qubit that there can be, and the first n count: the wire on each mode, whether a path
// starts there, the mode of each qubit.
#[derive(Clone, Copy)]
pub struct Report {
    pub n: usize,
    pub blocks: u32,
    pub two: u32,
    pub gaussian: u32,
    pub bad: u32,
    pub nonadjacent: u32,
    pub interactions: u32,
    pub swaps: usize,
    pub operations: u32,
    pub fraction: f64,
    pub residual: f64,
    pub conserving: bool,
    pub exact: bool,
    pub free: bool,
    pub angled: bool,
    pub ordering: Ordering,
    pub order: [u16; MAX_QUBITS],
    pub starts: [u16; MAX_QUBITS],
    pub modes: [u16; MAX_QUBITS],
}

// The part of the blocks that is Gaussian.
#[tactic(auto, using(std::proofs::lemmas::Bool::Decides::nat_tests), unfolding(crate::specs::Report::fraction_of))]
fn fraction(c: Counts) -> f64
    ensures { result ≡ fraction_of c }
{
    if c.blocks == 0 {
        return 1.0;
    }
    (c.gaussian as f64) / (c.blocks as f64)
}

// The operations that are written: none where a block is bad.
#[tactic(auto, using(std::proofs::lemmas::Bool::Decides::nat_tests))]
fn written(c: Counts) -> u32
    ensures { result ≡ written_count c }
{
    if c.bad == 0 { c.operations } else { 0 }
}

#[tactic(auto, using(std::proofs::lemmas::Bool::Decides::nat_tests))]
fn exact(c: Counts) -> bool
    ensures { result ≡ exact_of c }
{
    c.bad == 0 && c.interactions == 0
}

pub fn report_of(n: usize, c: Counts, fused: Tally, ordering: Ordering, tables: Tables) -> Report
    ensures { result ≡ report_of n c fused.swaps fused.angled ordering tables.order tables.starts tables.modes }
{
    let order = tables.order;
    let starts = tables.starts;
    let modes = tables.modes;
    Report {
        n,
        blocks: c.blocks,
        two: c.two,
        gaussian: c.gaussian,
        bad: c.bad,
        nonadjacent: c.nonadjacent,
        interactions: c.interactions,
        swaps: fused.swaps,
        operations: written(c),
        fraction: fraction(c),
        residual: c.residual,
        conserving: c.conserving,
        exact: exact(c),
        free: c.bad == 0,
        angled: fused.angled,
        ordering,
        order,
        starts,
        modes,
    }
}

// The numbers of a refusal's report are zero.
pub const NO_REPORT: Report = Report {
    n: 0,
    blocks: 0,
    two: 0,
    gaussian: 0,
    bad: 0,
    nonadjacent: 0,
    interactions: 0,
    swaps: 0,
    operations: 0,
    fraction: 0.0,
    residual: 0.0,
    conserving: false,
    exact: false,
    free: false,
    angled: false,
    ordering: Ordering::Identity,
    order: [0; MAX_QUBITS],
    starts: [0; MAX_QUBITS],
    modes: [0; MAX_QUBITS],
};
