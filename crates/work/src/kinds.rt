// The kind of a record, which stands in its column KIND as a number: the marks are lent words, so that no enum can stand in them.
ghost use Rattle.std.specs.Prelude.{◌≡◌};
ghost use Rattle.work.specs.Kinds.{kind_number, kind_of, is_item_of};

// First the kinds of an event: none, or a gate of one, two or three qubits. Then those of an item: on one wire; on two a matchgate, a diagonal
// with a phase that counts as none, an interaction, or neither; on three.
#[derive(Clone, Copy, Debug, PartialEq, Eq)]
pub enum Kind {
    Gone,
    One,
    Two,
    Three,
    OneItem,
    MatchItem,
    DiagonalItem,
    InteractionItem,
    NeitherItem,
    OpaqueItem,
}

impl From<Kind> for u32 {
    fn from(kind: Kind) -> u32
        ensures { result ≡ kind_number kind }
    {
        kind as u32
    }
}

impl Kind {
    // The kind that a number stands for, if it is a kind's. Not `TryFrom`: nobody would read its error.
    #[tactic(auto, using(std::proofs::lemmas::Bool::Decides::nat_tests), unfolding(crate::specs::Kinds::kind_of))]
    pub fn of(number: u32) -> Option<Kind>
        ensures { result ≡ kind_of number }
    {
        match number {
            0 => Some(Kind::Gone),
            1 => Some(Kind::One),
            2 => Some(Kind::Two),
            3 => Some(Kind::Three),
            4 => Some(Kind::OneItem),
            5 => Some(Kind::MatchItem),
            6 => Some(Kind::DiagonalItem),
            7 => Some(Kind::InteractionItem),
            8 => Some(Kind::NeitherItem),
            9 => Some(Kind::OpaqueItem),
            _ => None,
        }
    }

    // Whether an item has this kind.
    pub fn is_item(self) -> bool
        ensures { result ≡ is_item_of (kind_number self) }
    {
        !matches!(self, Kind::Gone | Kind::One | Kind::Two | Kind::Three)
    }
}
