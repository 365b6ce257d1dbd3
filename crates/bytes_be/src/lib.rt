// Numbers at a place of a slice, and the copy that everything written to an output uses.
#![tactic(auto)]

ghost use Rattle.std.specs.Prelude.{ℕ, ◌%◌, ◌≡◌, reverse, cond, ◌+◌, ◌≤◌, ◌<◌, ◌^◌, length};
ghost use Rattle.std.proofs.Common.{rules};
ghost use Rattle.bytes_be.specs.Part.{part, IsPartOf, put_at};
ghost use Rattle.bytes_be.specs.Part.{holds as Part·holds, same as Part·same};
ghost use Rattle.bytes_be.specs.Number.{from_bytes, number_at, to_bytes};

use std::convert::AsSlice;

// Where a part of a slice stands.
#[derive(Clone, Copy, PartialEq, Eq, Debug)]
pub struct Place {
    pub at: usize,
    pub length: usize,
}

impl Place {
    // The part of a slice that stands there, or as much of it as the slice has.
    pub fn part_of<'a>(self, s: &'a [u8]) -> &'a [u8]
        ensures { IsPartOf s.entry result self }
    {
        if s.len() < self.at {
            return &s[s.len()..];
        }
        let rest = &s[self.at..];
        if rest.len() < self.length {
            return rest;
        }
        &rest[..self.length]
    }
}

// Whether n bytes hold `size` bytes from place `at` on.
pub fn holds(n: usize, at: usize, size: usize) -> bool
    ensures { result ≡ Part·holds n at size }
{
    if n < size {
        return false;
    }
    at <= n - size
}

// The number that the eight bytes at place `at` say, the least significant first.
fn word(s: &[u8], at: usize) -> u64
    requires { at + 8 ≤ length s.now }
    ensures { result ≡ from_bytes (reverse (part s.now at 8)) }
{
    let end = at + 8;
    let Ok(bytes) = <[u8; 8]>::try_from(&s[at..end]) else {
        return 0;
    };
    u64::from_le_bytes(bytes)
}

// The same, or 0 where they do not all lie in s.
pub fn word_at(s: &[u8], at: usize) -> u64
    ensures { result ≡ cond (Part·holds (length s.now) at 8) (from_bytes (reverse (part s.now at 8))) 0 }
{
    let fits = holds(s.len(), at, 8);
    if !fits {
        return 0;
    }
    word(s, at)
}

// Whether two slices of one length have the same bytes, eight at a time; the last eight may begin among those that were compared before.
fn same_words(a: &[u8], b: &[u8]) -> bool
    requires { (length a.now ≡ length b.now) × (8 ≤ length a.now) }
    ensures { result ≡ Part·same a.now b.now }
{
    let last = a.len() - 8;
    for at in (0..last).step_by(8) {
        if word(a, at) != word(b, at) {
            return false;
        }
    }
    word(a, last) == word(b, last)
}

// Whether two slices have the same bytes. Those of the length of most names and keys are compared by words, which costs no call.
pub fn same(a: &[u8], b: &[u8]) -> bool
    ensures { result ≡ Part·same a.now b.now }
{
    if a.len() != b.len() {
        return false;
    }
    if a.len() < 8 || 40 <= a.len() {
        return a == b;
    }
    same_words(a, b)
}

// Copies `bytes` into `out` from place `at` on. Where they do not all fit, `out` stays as it is. The archive calls memcpy and nothing else, and the
// library's copy is a memmove.
pub fn copy_at(out: &mut [u8], at: usize, bytes: &[u8])
    ensures { out.new ≡ put_at out.old at bytes.now }
{
    let fits = holds(out.len(), at, bytes.len());
    if fits {
        for i in 0..bytes.len() {
            out[at + i] = bytes[i];
        }
    }
}

// A type of numbers that so many bytes hold, which stand the most significant first.
pub trait Number: Copy {
    type Bytes: AsSlice<u8> + Drop;

    const WIDTH: usize;

    ghost WIDTH: { ℕ };

    ghost value: { Self → ℕ };

    // The number that the last of n's bytes say, as many as the type has.
    fn of(n: u64) -> Self
        ensures { value result ≡ n % 256 ^ WIDTH };

    // The number's bytes.
    fn bytes(self) -> Self::Bytes
        ensures { Self.Bytes.items result ≡ to_bytes WIDTH (value self) };

    ghost narrow: { WIDTH ≤ 8 };
}

impl Number for u8 {
    type Bytes = [u8; 1];

    const WIDTH: usize = 1;

    ghost WIDTH = { 1 };

    ghost value = { λ n. n };

    ghost narrow = { Prim.search rules };

    fn of(n: u64) -> u8 {
        (n % 0x100) as u8
    }

    fn bytes(self) -> [u8; 1] {
        u8::to_be_bytes(self)
    }
}

impl Number for u16 {
    type Bytes = [u8; 2];

    const WIDTH: usize = 2;

    ghost WIDTH = { 2 };

    ghost value = { λ n. n };

    ghost narrow = { Prim.search rules };

    fn of(n: u64) -> u16 {
        (n % 0x1_0000) as u16
    }

    fn bytes(self) -> [u8; 2] {
        u16::to_be_bytes(self)
    }
}

impl Number for u32 {
    type Bytes = [u8; 4];

    const WIDTH: usize = 4;

    ghost WIDTH = { 4 };

    ghost value = { λ n. n };

    ghost narrow = { Prim.search rules };

    fn of(n: u64) -> u32 {
        (n % 0x1_0000_0000) as u32
    }

    fn bytes(self) -> [u8; 4] {
        u32::to_be_bytes(self)
    }
}

impl Number for u64 {
    type Bytes = [u8; 8];

    const WIDTH: usize = 8;

    ghost WIDTH = { 8 };

    ghost value = { λ n. n };

    ghost narrow = { Prim.search rules };

    fn of(n: u64) -> u64 {
        n
    }

    fn bytes(self) -> [u8; 8] {
        u64::to_be_bytes(self)
    }
}

// The number that so few bytes say.
fn number_of(bytes: &[u8]) -> u64
    requires { length bytes.now ≤ 8 }
    ensures { (result ≡ from_bytes bytes.now) × (result < 256 ^ length bytes.now) }
{
    let mut n: u64 = 0;
    for byte in bytes {
        n = n * 256 + u64::from(*byte);
    }
    n
}

// The number that the bytes at place `at` say, or 0 where they do not all lie in s.
pub fn read<N: Number>(s: &[u8], at: usize) -> N
    ensures { N.value result ≡ number_at N.WIDTH s.now at }
{
    let width = N::WIDTH;
    let fits = holds(s.len(), at, width);
    if !fits {
        return N::of(0);
    }
    let behind = at + width;
    N::of(number_of(&s[at..behind]))
}

// Stores a number's bytes from place `at` on. Where they do not all fit, `out` stays as it is.
pub fn store<N: Number>(out: &mut [u8], at: usize, n: N)
    ensures { out.new ≡ put_at out.old at (to_bytes N.WIDTH (N.value n)) }
{
    copy_at(out, at, n.bytes().as_slice());
}
