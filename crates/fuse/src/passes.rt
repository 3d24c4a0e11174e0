// A pass over all events in time order.
ghost use Rattle.std.specs.Prelude.{List};
ghost use Rattle.work.specs.Lent.{Has};
ghost use Rattle.fuse.specs.Events.{Event};
ghost use Rattle.fuse.specs.Passes.{PassLaws};
ghost use Rattle.fuse.specs.Lent.{Steps, Passes};

use work::Work;

// What a pass does with each event.
pub trait Pass {
    ghost step: { Event → List Event → List Event };

    ghost whole: { List Event → List Event };

    ghost laws: { PassLaws step whole };

    // Puts event i to those before it.
    fn take(work: &mut Work, i: usize)
        requires { Has work.old i }
        ensures { Steps step work.old work.new i };
}

// All events, the oldest first.
pub fn run_pass<P: Pass>(work: &mut Work)
    ensures { Passes P.whole work.old work.new work.old.gates }
{
    for i in 0..work.gates() {
        P::take(work, i);
    }
}
