// Why a call on the state is refused. Each case has its number and place in specs/Answers.antt.

#[derive(Clone, Copy, Debug, PartialEq, Eq)]
pub enum Refusal {
    BadState, // 16
    BadOperation, // 17
    BadBits, // 18
    BadQubit(usize), // 19, at a place of the list
    SmallWork, // 20
    BadShots, // 21
    BadDraw(usize), // 22, at a place of the list
}
