// What a state call answers, as plain numbers, for C and the replay programs: the one place in the code where a case of `Refusal` becomes a number.

ghost use Rattle.std.specs.Prelude.{◌≡◌};
ghost use Rattle.state.specs.Answers.{refused, refusal, told, done};

use super::answer::Refusal;

// The question whose answer is no, or 0; the place; the number asked for.
#[derive(Clone, Copy)]
pub struct Told {
    pub number: u64,
    pub place: u64,
    pub value: f64,
}

// A refusal's value is zero.
fn told_refused(number: u64, place: usize) -> Told
    ensures { result ≡ refused number place }
{
    Told {
        number,
        place: place as u64,
        value: 0.0,
    }
}

// Of a refusal, by its cases.
impl From<Refusal> for Told {
    ghost from_gives = { λ why t. t ≡ refusal why };

    fn from(why: Refusal) -> Told {
        match why {
            Refusal::BadState => told_refused(16, 0),
            Refusal::BadOperation => told_refused(17, 0),
            Refusal::BadBits => told_refused(18, 0),
            Refusal::BadQubit(place) => told_refused(19, place),
            Refusal::SmallWork => told_refused(20, 0),
            Refusal::BadShots => told_refused(21, 0),
            Refusal::BadDraw(place) => told_refused(22, place),
        }
    }
}

// Of a query.
impl From<Result<f64, Refusal>> for Told {
    ghost from_gives = { λ r t. t ≡ told r };

    fn from(r: Result<f64, Refusal>) -> Told {
        match r {
            Ok(value) => Told {
                number: 0,
                place: 0,
                value,
            },
            Err(why) => Told::from(why),
        }
    }
}

// Of a call that gives no number.
impl From<Result<(), Refusal>> for Told {
    ghost from_gives = { λ r t. t ≡ done r };

    fn from(r: Result<(), Refusal>) -> Told {
        Told::from(r.and(Ok(0.0)))
    }
}
