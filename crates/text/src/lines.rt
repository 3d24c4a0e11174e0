// The lines of the text. A usize is cast to u64, since the library has none between them that cannot fail. By `push_str`, not `write!` or Display: `write!`
// promises its text only where it answers Ok, and not that it does. How many qubits (`few`) is asked: a report may have more, one that is printed has not.
ghost use Rattle.std.specs.Prelude.{◌≡◌, ◌+◌, ◌≤◌, ◌++◌, length};
ghost use Rattle.detect.specs.Told.{question_of, offset_of};
ghost use Rattle.text.specs.Bounds.{printed_qubits, max_report_line, max_order_line, max_text};
ghost use Rattle.text.specs.Lines.{name_of, wires, report_line, order_line, z_line, refused_line};
ghost use Rattle.text.specs.Room.{Room};

use crate::millionths::push_z;
use crate::words::{Text, push_count, push_field};
use detect::{Refusal, Report};
use order::Ordering;

#[tactic(auto, using(crate::proofs::Lengths::short), unfolding(crate::specs::Ascii::ascii))]
pub fn push_report_line(text: &mut Text, r: &Report)
    requires few { r.now.n ≤ printed_qubits }
    requires room { length text.old.bytes + max_report_line ≤ max_text }
    ensures line { text.new.bytes ≡ text.old.bytes
        ++ report_line r.now.n r.now.blocks r.now.gaussian r.now.bad r.now.interactions }
    ensures bound { length text.new.bytes ≤ length text.old.bytes + max_report_line }
{
    push_field(text, "qubits ", r.n as u64);
    push_count(text, " blocks ", r.blocks);
    push_count(text, " gaussian ", r.gaussian);
    push_count(text, " bad ", r.bad);
    push_count(text, " interactions ", r.interactions);
    text.push_str("\n");
}

#[tactic(auto, unfolding(crate::specs::Ascii::ascii, crate::specs::Lines::name_of))]
fn name(ordering: Ordering) -> &'static str
    ensures { result.now ≡ name_of ordering }
{
    match ordering {
        Ordering::Identity => "identity",
        Ordering::Paths => "paths",
        Ordering::Greedy => "greedy",
    }
}

// The wires by mode.
fn push_wires(text: &mut Text, order: &[u16])
    requires { Room text.old.bytes (wires order.now (length order.now)) }
    ensures { text.new.bytes ≡ text.old.bytes ++ wires order.now (length order.now) }
{
    for wire in order {
        push_field(text, " ", u64::from(*wire));
    }
}

#[tactic(auto, unfolding(crate::specs::Ascii::ascii, crate::specs::Lines::order_line))]
fn push_ordering(text: &mut Text, ordering: Ordering, order: &[u16])
    requires { Room text.old.bytes (order_line ordering order.now (length order.now)) }
    ensures { text.new.bytes ≡ text.old.bytes ++ order_line ordering order.now (length order.now) }
{
    text.push_str("order ");
    text.push_str(name(ordering));
    push_wires(text, order);
    text.push_str("\n");
}

// The ordering, and the wires by mode.
pub fn push_order_line(text: &mut Text, ordering: Ordering, order: &[u16])
    requires few { length order.now ≤ printed_qubits }
    requires room { length text.old.bytes + max_order_line ≤ max_text }
    ensures line { text.new.bytes ≡ text.old.bytes ++ order_line ordering order.now (length order.now) }
    ensures bound { length text.new.bytes ≤ length text.old.bytes + max_order_line }
{
    push_ordering(text, ordering, order);
}

#[tactic(auto, unfolding(crate::specs::Ascii::ascii, crate::specs::Lines::z_line))]
pub fn push_z_line(text: &mut Text, q: u64, x: f64)
    requires { Room text.old.bytes (z_line q x) }
    ensures { text.new.bytes ≡ text.old.bytes ++ z_line q x }
{
    push_field(text, "q", q);
    text.push_str(" ");
    push_z(text, x);
    text.push_str("\n");
}

#[tactic(auto, using(crate::proofs::Lengths::place_short), unfolding(crate::specs::Ascii::ascii, crate::specs::Lines::refused_line))]
pub fn push_refused(text: &mut Text, refusal: Refusal)
    requires { length text.old.bytes + 43 ≤ max_text }
    ensures { text.new.bytes ≡ text.old.bytes ++ refused_line (question_of refusal) (offset_of refusal) }
{
    push_count(text, "refused ", refusal.number());
    push_field(text, " at ", refusal.place() as u64);
    text.push_str("\n");
}
