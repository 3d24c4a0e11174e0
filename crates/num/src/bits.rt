// f64 from and to its bits, and little-endian numbers in bytes. A number is read from a place in the bytes: a caller that cut a slice of its own first would
// owe the same bound there.

ghost use Rattle.std.specs.Prelude.{◌≡◌, ◌+◌, ◌^◌, ◌≤◌, ◌<◌, length};
ghost use Rattle.std.specs.Float.{binary64};
ghost use Rattle.std.specs.Float.Ieee.{of_bits};
ghost use Rattle.num.specs.Bits.{le16, le64, f64_at, bits_of};

pub const SIGN: u64 = 1 << 63; // the weight of the sign bit

pub const INFINITY: u64 = 0x7ff0_0000_0000_0000; // the pattern of the infinity

const QUIET_NAN: u64 = 0x7ff8_0000_0000_0000; // the pattern that stands for every NaN

// Rust's `from_bits`, which the library has for no pattern of a NaN: there is one NaN, and it is
// made here, whatever its pattern was.
pub fn from_bits(b: u64) -> f64
    ensures { result ≡ of_bits binary64 b }
{
    if b % SIGN > INFINITY {
        return 0.0 / 0.0;
    }
    f64::from_bits(b)
}

// Rust's `to_bits`, but for a NaN, which the library's refuses: it always gets the same pattern.
#[tactic(auto, unfolding(crate::specs::Bits::bits_of))]
pub fn to_bits(x: f64) -> u64
    ensures { result ≡ bits_of x }
{
    if x.is_nan() {
        return QUIET_NAN;
    }
    x.to_bits()
}

// The number in the 2 bytes from `at` on, the lowest first. For each size a function: `from_le_bytes` is each type's own.
#[tactic(auto, unfolding(crate::specs::Bits::le16))]
pub fn u16_at(s: &[u8], at: usize) -> u64
    requires { at + 2 ≤ length s.now }
    ensures value { result ≡ le16 s.now at }
    ensures bound { result < 2 ^ 16 }
{
    u64::from(u16::from_le_bytes([s[at], s[at + 1]]))
}

// The number in 8 bytes.
#[tactic(auto, unfolding(crate::specs::Bits::le64, crate::specs::Bits::le32, crate::specs::Bits::le16))]
pub fn u64_at(s: &[u8], at: usize) -> u64
    requires { at + 8 ≤ length s.now }
    ensures value { result ≡ le64 s.now at }
    ensures bound { result < 2 ^ 64 }
{
    u64::from_le_bytes([
        s[at],
        s[at + 1],
        s[at + 2],
        s[at + 3],
        s[at + 4],
        s[at + 5],
        s[at + 6],
        s[at + 7],
    ])
}

// The f64 in 8 bytes.
pub fn f64_at(s: &[u8], at: usize) -> f64
    requires { at + 8 ≤ length s.now }
    ensures { result ≡ f64_at s.now at }
{
    from_bits(u64_at(s, at))
}
