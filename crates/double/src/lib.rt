// Doubles as eight bytes, and the limit that a double says.
#![tactic(auto)]

ghost use Rattle.std.specs.Prelude.{◌≡◌, reverse, from_bits};
ghost use Rattle.std.specs.Float.{binary64};
ghost use Rattle.double.specs.Double.{bits_at, bytes_of};
ghost use Rattle.double.specs.Limit.{limit_of};

use bytes_be::Number;

// The number that the eight bytes at place `at` say, the least significant first, or 0 where they do not all lie in s.
#[tactic(auto, unfolding(crate::specs::Double::bits_at))]
pub fn bits_at(s: &[u8], at: usize) -> u64
    ensures { result ≡ bits_at s.now at }
{
    bytes_be::word_at(s, at)
}

// The double of a bit pattern. Each NaN pattern is a NaN.
pub fn double_of(bits: u64) -> f64
    ensures { result ≡ from_bits binary64 bits }
{
    // The pattern without its sign is greater than that of the infinity where it is a NaN, and nowhere else.
    let unsigned = bits % 0x8000_0000_0000_0000;
    if 0x7FF0_0000_0000_0000 < unsigned {
        return 0.0 / 0.0;
    }
    f64::from_bits(bits)
}

// The eight bytes, the least significant first, of the double of a whole number.
pub fn bytes_of(number: u32) -> [u8; 8]
    ensures { result ≡ bytes_of number }
{
    let bits = f64::to_bits(number as f64);
    let mut bytes = bits.bytes();
    bytes.reverse();
    bytes
}

// The limit that a double says, if it is a whole number from 1,000,000 to 50,000,000. It is compared as an integer, and equal bits show that
// nothing was lost.
pub fn limit_of(double: f64) -> Option<u32>
    ensures { result ≡ limit_of double }
{
    // Above -1 and below 2^64, so that 64 bits hold it without its fraction; a NaN is neither.
    let truncates = (double > -1.0) & (double < 18446744073709551616.0);
    if !truncates {
        return None;
    }
    let truncated = std::num::truncating_f64_to_u64(double);
    if truncated < 1000000 {
        return None;
    }
    if 50000000 < truncated {
        return None;
    }
    let number = truncated as u32;
    if f64::to_bits(number as f64) == f64::to_bits(double) {
        return Some(number);
    }
    None
}
