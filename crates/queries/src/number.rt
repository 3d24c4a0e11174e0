// What products and marginals answer: a number, and beside it the row in which its Pfaffian stopped. A basis index and a sample have no row.

ghost use Rattle.std.specs.Prelude.{◌≡◌};
ghost use Rattle.queries.specs.Answers.{rowless, stopped, answered};

use state::{Refusal, Told};

// A number, and the row in which the search for a pivot ended at zero, if it did.
#[derive(Clone, Copy)]
pub struct Number {
    pub value: f64,
    pub row: Option<usize>,
}

impl Number {
    // Of a Pfaffian that has a value, and of a contradiction.
    pub fn rowless(value: f64) -> Number
        ensures { result ≡ rowless value }
    {
        Number { value, row: None }
    }

    // Of a Pfaffian that stopped: 0.0.
    pub fn stopped(row: usize) -> Number
        ensures { result ≡ stopped row }
    {
        Number {
            value: 0.0,
            row: Some(row),
        }
    }
}

// The answer, as any call on a state tells it, and the row.
#[derive(Clone, Copy)]
pub struct Answered {
    pub told: Told,
    pub row: Option<usize>,
}

// A refusal has no row.
impl From<Result<Number, Refusal>> for Answered {
    ghost from_gives = { λ r a. a ≡ answered r };

    fn from(r: Result<Number, Refusal>) -> Answered {
        match r {
            Ok(number) => Answered {
                told: Told::from(Ok(number.value)),
                row: number.row,
            },
            Err(why) => Answered {
                told: Told::from(why),
                row: None,
            },
        }
    }
}
