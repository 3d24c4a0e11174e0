// A stored call in lent work.
use crate::rooms::{FLOATS, MARKS};
use crate::values::is_cleared;

// What a call answers in work of so many floats and marks, with 7 in every place before, and whether so many of each are zero after it and the others as
// before. Nothing where no stored call has so long a slice.
pub fn worked<A, F: FnOnce(&mut [f64], &mut [u32]) -> A>(
    lengths: [usize; 2],
    zeros: [usize; 2],
    call: F,
) -> Option<(A, bool)>
    requires { F.IsAlwaysCallable call }
{
    let mut float_space = [7.0; FLOATS];
    let mut mark_space = [7u32; MARKS];
    let floats = float_space.get_mut(..lengths[0])?;
    let marks = mark_space.get_mut(..lengths[1])?;
    let answer = call(floats, marks);
    let cleared = is_cleared(floats, zeros[0], 7.0) && is_cleared(marks, zeros[1], 7);
    Some((answer, cleared))
}
