// The answers of products and marginals: where place, value and row are written.
ghost use Rattle.std.specs.Prelude.{◌≡◌, true, length};
ghost use Rattle.queries.specs.Answers.{answered};
ghost use Rattle.engine.specs.Answers.{has_places, row_word, RowFits, Tells};

use queries::{Answered, Number};
use state::Refusal;

// A slice for the answer itself is too short.
pub const NO_ROOM: u64 = 99;

// There is a place for each of the place, the value and the row.
#[tactic(auto, using(std::proofs::lemmas::Bool::Decides::nat_tests), unfolding(crate::specs::Answers::has_places))]
pub fn has_places(place: usize, answer: usize, row: usize) -> bool
    ensures { result ≡ has_places place answer row }
{
    place >= 1 && answer >= 1 && row >= 1
}

// A row as a word: 0 if there is none.
fn row_word(row: Option<usize>) -> u64
    requires { RowFits row }
    ensures { result ≡ row_word row }
{
    match row {
        None => 0,
        Some(k) => k as u64 + 1,
    }
}

// Place, value and row are written, the number is returned.
#[tactic(auto, unfolding(crate::specs::Answers::has_places))]
pub fn tell(
    a: Result<Number, Refusal>,
    place: &mut [u64],
    answer: &mut [f64],
    row: &mut [u64],
) -> u64
    requires room { has_places (length place.old) (length answer.old) (length row.old) ≡ true }
    requires fits { RowFits (answered a).row }
    ensures { Tells (answered a) place.old answer.old row.old result place.new answer.new row.new }
{
    let x = Answered::from(a);
    place[0] = x.told.place;
    answer[0] = x.told.value;
    row[0] = row_word(x.row);
    x.told.number
}
