// Protobuf's varints and fields: read at a place of a lent message, and the shortest varint of a number.
#![tactic(auto)]

ghost use Rattle.std.specs.Prelude.{◌≡◌, cond, ◌≤◌, ◌+◌, ◌%◌, ltb, length, take};
ghost use Rattle.bytes_be.specs.Part.{put_at};
ghost use Rattle.wire.specs.Varint.{bounded, said_at, varint_at, varint_length, shortest_of};
ghost use Rattle.wire.specs.Fields.{place_of, fault_number, on_varint, sized, numbered, payload_at, field_at, fields_of, fields_left, begun_at};

use bytes_be::Place;
use numbered::Numbered;

// Why a message cannot be read.
#[derive(Clone, Copy)]
pub enum Kind {
    // The message ends within it.
    CutShort,
    // Over ten bytes or above 2^64 - 1, or a tag of field 0 or above 2^32 - 1.
    BadVarint,
    // Not that of its field, or none of 0, 1, 2 and 5.
    WireType,
    // A field, or a key of one Struct.
    Repeated,
    // Not UTF-8.
    BadText,
    // A field or a value that is not allowed, or at the end of a message something that it lacks.
    Other,
    // A ninth level.
    TooDeep,
}

// Why, and where: the place of the tag of the field at fault, or the end of the message that lacks something.
#[derive(Clone, Copy)]
pub struct Fault {
    pub kind: Kind,
    pub at: usize,
}

// What a varint says, and the place behind it.
#[derive(Clone, Copy)]
pub struct Varint {
    pub value: u64,
    pub next: usize,
}

#[derive(Clone, Copy)]
pub struct Field {
    // Where its tag begins.
    pub tag: usize,
    pub number: u64,
    pub wire: u64,
    // What its varint says; 0 where it is none.
    pub value: u64,
    // Its payload, from place `at` up to place `next`, behind which the next field begins.
    pub at: usize,
    pub next: usize,
}

impl Field {
    // Where its payload stands.
    pub fn payload(self) -> Place
        ensures { result ≡ place_of self }
    {
        Place {
            at: self.at,
            length: self.next.saturating_sub(self.at),
        }
    }
}

impl Numbered for Fault {
    ghost number = { fault_number };

    fn number(&self) -> u8 {
        18
    }
}

// The varint at place `at` of a message that ends at `end`, where `left` bytes are the most it may have.
fn varint_within(s: &[u8], at: usize, end: usize, left: usize) -> Result<Varint, Kind>
    requires { end ≤ length s.now }
    ensures { result ≡ bounded (said_at left s.now at end) }
{
    if left == 0 {
        return Err(Kind::BadVarint);
    }
    if end <= at {
        return Err(Kind::CutShort);
    }
    let byte = s[at];
    if byte < 128 {
        return Ok(Varint {
            value: u64::from(byte),
            next: at + 1,
        });
    }
    let behind = varint_within(s, at + 1, end, left - 1)?;
    if 0x0200_0000_0000_0000 <= behind.value {
        return Err(Kind::BadVarint);
    }
    Ok(Varint {
        value: behind.value * 128 + u64::from(byte % 128),
        next: behind.next,
    })
}

// The varint at place `at` of a message that ends at `end`. Nearly all have one byte, and need no call.
fn varint_at(s: &[u8], at: usize, end: usize) -> Result<Varint, Kind>
    requires { end ≤ length s.now }
    ensures { result ≡ varint_at s.now at end }
{
    if at < end {
        let byte = s[at];
        if byte < 128 {
            return Ok(Varint {
                value: u64::from(byte),
                next: at + 1,
            });
        }
    }
    varint_within(s, at, end, 10)
}

// The field whose payload is the `size` bytes from place `at` on.
fn sized_field(
    tag: usize,
    number: u64,
    wire: u64,
    at: usize,
    end: usize,
    size: u64,
) -> Result<Field, Fault>
    requires { at ≤ end }
    ensures { result ≡ sized tag number wire at end size }
{
    let room = (end - at) as u64;
    if room < size {
        return Err(Fault {
            kind: Kind::CutShort,
            at: tag,
        });
    }
    Ok(Field {
        tag,
        number,
        wire,
        value: 0,
        at,
        next: at + size as usize,
    })
}

// The field whose payload is the varint at place `at`.
fn number_field(s: &[u8], tag: usize, number: u64, at: usize, end: usize) -> Result<Field, Fault>
    requires { end ≤ length s.now }
    ensures { result ≡ on_varint tag (numbered tag number at) (varint_at s.now at end) }
{
    match varint_at(s, at, end) {
        Ok(said) => Ok(Field {
            tag,
            number,
            wire: 0,
            value: said.value,
            at,
            next: said.next,
        }),
        Err(kind) => Err(Fault { kind, at: tag }),
    }
}

// The field whose payload is as many bytes as the varint at place `at` says, behind it.
fn bytes_field(s: &[u8], tag: usize, number: u64, at: usize, end: usize) -> Result<Field, Fault>
    requires { (at ≤ end) × (end ≤ length s.now) }
    ensures { result ≡ on_varint tag (λ size from. sized tag number 2 from end size) (varint_at s.now at end) }
{
    match varint_at(s, at, end) {
        Ok(size) => sized_field(tag, number, 2, size.next, end, size.value),
        Err(kind) => Err(Fault { kind, at: tag }),
    }
}

// The field whose tag was read, and whose payload begins at place `at`.
fn payload_at(
    s: &[u8],
    tag: usize,
    number: u64,
    wire: u64,
    at: usize,
    end: usize,
) -> Result<Field, Fault>
    requires { (at ≤ end) × (end ≤ length s.now) }
    ensures { result ≡ payload_at s.now tag number wire at end }
{
    match wire {
        0 => number_field(s, tag, number, at, end),
        1 => sized_field(tag, number, 1, at, end, 8),
        2 => bytes_field(s, tag, number, at, end),
        5 => sized_field(tag, number, 5, at, end, 4),
        _ => Err(Fault {
            kind: Kind::WireType,
            at: tag,
        }),
    }
}

// The field whose tag is at place `at` of a message that ends at `end`, or why and where it cannot be read.
pub fn field_at(s: &[u8], at: usize, end: usize) -> Result<Field, Fault>
    ensures { result ≡ field_at s.now at end }
{
    if s.len() < end {
        return Err(Fault {
            kind: Kind::CutShort,
            at,
        });
    }
    match varint_at(s, at, end) {
        Ok(tag) => {
            let legal = (8 <= tag.value) & (tag.value <= 0xFFFF_FFFF);
            if legal {
                return payload_at(s, at, tag.value / 8, tag.value % 8, tag.next, end);
            }
            Err(Fault {
                kind: Kind::BadVarint,
                at,
            })
        }
        Err(kind) => Err(Fault { kind, at }),
    }
}

// The fields of a lent message, one after the other; one that cannot be read is the last.
#[derive(Clone, Copy)]
pub struct Fields<'a> {
    s: &'a [u8],
    // Where the next field begins, and where the message ends.
    at: usize,
    to: usize,
}

// The fields from place `from` on of the message that ends at `to`.
pub fn fields_of(s: &[u8], from: usize, to: usize) -> Fields<'_>
    ensures left { fields_left result ≡ fields_of s.now from to }
    ensures begun { result ≡ begun_at s.entry from to }
{
    Fields { s, at: from, to }
}

impl<'a> Iterator for Fields<'a> {
    ghost use Rattle.std.specs.Iterator.{item_count};
    ghost use Rattle.wire.specs.Fields.{fields_left, NextAnswer};

    type Item = Result<Field, Fault>;

    ghost next_gives = { NextAnswer };

    ghost remaining = { item_count fields_left };

    fn next(&mut self) -> Option<Result<Field, Fault>> {
        if self.to <= self.at {
            return None;
        }
        let read = field_at(self.s, self.at, self.to);
        self.at = match read {
            Ok(field) => field.next,
            Err(_) => self.to,
        };
        Some(read)
    }
}

// A number's lowest seven bits, marked where higher ones follow.
fn digit_of(number: u64) -> u8
    ensures { result ≡ cond (ltb number 128) number (number % 128 + 128) }
{
    if number < 128 {
        return number as u8;
    }
    (number % 128 + 128) as u8
}

// Ten bytes that begin with the shortest varint of a number. A loop would carry what is left of the number beside them, which is no plainer.
fn digits_of(number: u64) -> [u8; 10]
    ensures { take (varint_length number) result ≡ shortest_of number }
{
    // The number without its lowest digit, without its lowest two, and so on.
    let b = number / 128;
    let c = b / 128;
    let d = c / 128;
    let e = d / 128;
    let f = e / 128;
    let g = f / 128;
    let h = g / 128;
    let i = h / 128;
    let j = i / 128;
    [
        digit_of(number),
        digit_of(b),
        digit_of(c),
        digit_of(d),
        digit_of(e),
        digit_of(f),
        digit_of(g),
        digit_of(h),
        digit_of(i),
        digit_of(j),
    ]
}

// How many bytes the shortest varint of a number has. The loop ends with the number, so there is nothing that a `for` could go over.
pub fn varint_length(number: u64) -> usize
    ensures { result ≡ varint_length number }
{
    let mut left = number;
    let mut count = 1;
    while 128 <= left {
        left = left / 128;
        count += 1;
    }
    count
}

// Stores the shortest varint of a number from place `at` on. Where it does not fit, `out` stays as it is.
pub fn store_varint(out: &mut [u8], at: usize, number: u64)
    ensures { out.new ≡ put_at out.old at (shortest_of number) }
{
    let digits = digits_of(number);
    let length = varint_length(number);
    bytes_be::copy_at(out, at, &digits[..length]);
}
