// The report of an accepted tape, from its gates to the counts; the lent work holds the items and the order afterwards.
ghost use Rattle.tape.specs.Parse.{gates_of};
ghost use Rattle.detect.specs.Lent.{WorkFor, Detects};

use crate::count::count_all;
use crate::report::{Report, report_of};
use crate::tables::Tables;
use fuse::relabel_all;
use order::order_work;
use resolve::{Rules, fuse_events};
use tape::Header;
use work::Work;

// The report of a tape with the header h.
pub fn detect(tape: &[u8], h: Header, work: &mut Work) -> Report
    requires { WorkFor tape.now h work.old }
    ensures { Detects h (gates_of tape.now) work.old work.new result }
{
    let n = work.slots();
    let relabel = h.relabels();
    let swaps = relabel_all(tape, work, relabel);
    let rules = Rules {
        relabel,
        tol: h.tolerance,
    };
    let fused = fuse_events(work, rules, swaps);
    let ordering = order_work(work, h.reorders());
    let counts = count_all(work, h.tolerance);
    report_of(n, counts, fused, ordering, Tables::of(work))
}
