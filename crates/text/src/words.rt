// A text in the making: words, and numbers in decimal, one behind the other. `Room` is asked of each piece, since each has another length: no fact about the
// text alone says it.
ghost use Rattle.std.specs.Prelude.{◌≡◌, ◌+◌, ◌≤◌, ◌++◌, length};
ghost use Rattle.text.specs.Ascii.{decimal};
ghost use Rattle.text.specs.Bounds.{max_text};
ghost use Rattle.text.specs.Room.{Room};

use arrayvec::ArrayString;
use itoa::Buffer;

// No text is longer.
pub const MAX_TEXT: usize = 256;

pub type Text = ArrayString<MAX_TEXT>;

#[tactic(auto, using(crate::proofs::Decimals::decimal_is))]
pub fn push_decimal(text: &mut Text, x: u64)
    requires { Room text.old.bytes (decimal x) }
    ensures { text.new.bytes ≡ text.old.bytes ++ decimal x }
{
    let mut digits = Buffer::new();
    text.push_str(digits.format(x));
}

// A word, and a number behind it.
pub fn push_field(text: &mut Text, word: &str, x: u64)
    requires { Room text.old.bytes (word.now ++ decimal x) }
    ensures text { text.new.bytes ≡ text.old.bytes ++ (word.now ++ decimal x) }
    ensures end { length text.new.bytes ≡ length text.old.bytes + length word.now + length (decimal x) }
{
    text.push_str(word);
    push_decimal(text, x);
}

// A word, and a count behind it, which has ten digits at most.
#[tactic(auto, using(crate::proofs::Lengths::short))]
pub fn push_count(text: &mut Text, word: &str, x: u32)
    requires { length text.old.bytes + length word.now + 10 ≤ max_text }
    ensures text { text.new.bytes ≡ text.old.bytes ++ (word.now ++ decimal x) }
    ensures end { length text.new.bytes ≤ length text.old.bytes + length word.now + 10 }
{
    push_field(text, word, u64::from(x));
}
