// An answer as plain numbers: what C and the replay programs are told. Beside `state::Told`: each crate's definition has its own struct, and neither crate
// needs the other.
ghost use Rattle.std.specs.Prelude.{◌≡◌};
ghost use Rattle.detect.specs.Told.{told, numbers};

use crate::refusal::Refusal;
use crate::report::{NO_REPORT, Report};

// The question whose answer is no, or 0; the place of a refusal, or 0; the report, whose numbers are zero after a refusal.
#[derive(Clone, Copy)]
pub struct Told {
    pub number: u64,
    pub place: u64,
    pub report: Report,
}

impl From<Result<Report, Refusal>> for Told {
    fn from(answer: Result<Report, Refusal>) -> Told
        ensures { result ≡ numbers (told answer) }
    {
        match answer {
            Ok(report) => Told {
                number: 0,
                place: 0,
                report,
            },
            Err(refusal) => Told {
                number: u64::from(refusal.number()),
                place: refusal.place() as u64,
                report: NO_REPORT,
            },
        }
    }
}
