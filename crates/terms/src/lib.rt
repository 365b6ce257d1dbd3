// Terms: what a Value holds, a term looked up by its key, and the limit that a client's parameters announce.
#![tactic(auto)]

ghost use Rattle.std.specs.Prelude.{◌≡◌, [], ◌∷◌, ◌+◌, ◌≤◌, length, Err};
ghost use Rattle.terms.specs.Value.{held_by, value_at, value_of};
ghost use Rattle.terms.specs.Lookup.{if_readable, in_layer, look_up, refusal_number, term_number, IsPart, PartOf};
ghost use Rattle.terms.specs.Announced.{from_double, from_value, from_held, limit_in, bad_number, announced_limit};

use bytes_be::Place;
use numbered::Numbered;
use wire::{Fault, Field, Kind};

// What a Value holds.
#[derive(Clone, Copy)]
pub enum Value {
    Null,
    // The double, and its 64 bits as they stand: all NaNs are one double.
    Number { double: f64, bits: u64 },
    // Where the text stands.
    Text(Place),
    Boolean(bool),
    Struct,
    List,
}

// What the field of a Value holds.
#[tactic(auto, unfolding(crate::specs::Value::held_by))]
fn held_by(s: &[u8], field: Field) -> Result<Value, Fault>
    ensures { result ≡ held_by s.now field }
{
    match field.number {
        1 => Ok(Value::Null),
        2 => {
            let bits = double::bits_at(s, field.at);
            Ok(Value::Number {
                double: double::double_of(bits),
                bits,
            })
        }
        3 => Ok(Value::Text(field.payload())),
        4 => Ok(Value::Boolean(field.value == 1)),
        5 => Ok(Value::Struct),
        6 => Ok(Value::List),
        _ => Err(Fault {
            kind: Kind::Other,
            at: field.tag,
        }),
    }
}

// What the Value from `from` to `to` holds, where it is known to be readable.
#[tactic(auto, unfolding(crate::specs::Value::value_at))]
fn value_at(s: &[u8], from: usize, to: usize) -> Result<Value, Fault>
    ensures { result ≡ value_at s.now from to }
{
    let field = wire::field_at(s, from, to)?;
    held_by(s, field)
}

// What a Value that is read alone holds, or why and where it cannot be read.
#[tactic(auto, unfolding(crate::specs::Value::value_of))]
pub fn value_of(s: &[u8]) -> Result<Value, Fault>
    ensures { result ≡ value_of s.now }
{
    params::check_alone(s)?;
    value_at(s, 0, s.len())
}

// A term that was looked up: the layer that has it, and where its Value stands there. Layer 0 is the client's parameters, layer 1 the default
// Struct beneath them.
#[derive(Clone, Copy)]
pub struct Term {
    pub layer: u8,
    pub place: Place,
}

// Why a lookup answers no term.
#[derive(Clone, Copy)]
pub enum Refusal {
    // 18, and 36 for the default Struct: the first layer that cannot be read, and why and where it cannot.
    Unreadable { layer: u8, why: Fault },
    // 37.
    Absent,
}

impl Numbered for Refusal {
    ghost number = { refusal_number };

    fn number(&self) -> u8 {
        match self {
            Refusal::Unreadable { layer, why } => {
                if *layer == 0 {
                    return why.number();
                }
                36
            }
            Refusal::Absent => 37,
        }
    }
}

// The layer that the check refuses.
fn unreadable(layer: u8, check: Result<(), Fault>) -> Result<Term, Refusal>
    ensures { result ≡ if_readable layer check (Err Refusal.Absent) }
{
    match check {
        Ok(()) => Err(Refusal::Absent),
        Err(why) => Err(Refusal::Unreadable { layer, why }),
    }
}

// The term of a layer, beneath which nothing is looked at.
fn in_layer(layer: u8, found: Option<Place>) -> Result<Term, Refusal>
    ensures { result ≡ in_layer layer found (Err Refusal.Absent) }
{
    let Some(place) = found else {
        return Err(Refusal::Absent);
    };
    Ok(Term { layer, place })
}

// Where the term of a key stands: both Structs are read whole, and the client's is looked at first.
pub fn term_of(client: &[u8], defaults: &[u8], key: &[u8]) -> Result<Term, Refusal>
    ensures { result ≡ look_up (client.now ∷ defaults.now ∷ []) key.now }
{
    let read = params::check_struct(client, 0, client.len());
    let Ok(()) = read else {
        return unreadable(0, read);
    };
    let beneath = params::check_struct(defaults, 0, defaults.len());
    let Ok(()) = beneath else {
        return unreadable(1, beneath);
    };
    let found = params::find(client, 0, client.len(), key);
    let None = found else {
        return in_layer(0, found);
    };
    in_layer(1, params::find(defaults, 0, defaults.len(), key))
}

// The part of a slice at a place.
fn part_at<'a>(s: &'a [u8], place: Place) -> &'a [u8]
    requires { place.at + place.length ≤ length s.now }
    ensures { IsPart s.entry result place }
{
    let first = place.at;
    let behind = place.at + place.length;
    &s[first..behind]
}

// The term of a key, as the part of the client's parameters or of the default Struct that holds its Value. A refused lookup gives the
// empty part at the start of the client's parameters, and its number.
pub fn look_up<'a>(client: &'a [u8], defaults: &'a [u8], key: &[u8], number: &mut u32) -> &'a [u8]
    ensures part { PartOf client.entry defaults.entry result (look_up (client.now ∷ defaults.now ∷ []) key.now) }
    ensures told { number.new ≡ term_number (look_up (client.now ∷ defaults.now ∷ []) key.now) }
{
    let answer = term_of(client, defaults, key);
    *number = numbered::number_of(&answer) as u32;
    match answer {
        Ok(Term { layer, place }) => {
            if layer == 0 {
                return part_at(client, place);
            }
            part_at(defaults, place)
        }
        Err(_) => part_at(client, Place { at: 0, length: 0 }),
    }
}

// The announced limit is no number, not whole, or out of range.
#[derive(Clone, Copy)]
pub struct BadLimit;

impl Numbered for BadLimit {
    ghost number = { bad_number };

    fn number(&self) -> u8 {
        19
    }
}

fn from_double(limit: Option<u32>) -> Result<Option<u32>, BadLimit>
    ensures { result ≡ from_double limit }
{
    let Some(number) = limit else {
        return Err(BadLimit);
    };
    Ok(Some(number))
}

fn from_value(value: Value) -> Result<Option<u32>, BadLimit>
    ensures { result ≡ from_value value }
{
    match value {
        Value::Number { double, bits: _ } => from_double(double::limit_of(double)),
        _ => Err(BadLimit),
    }
}

fn from_held(held: Result<Value, Fault>) -> Result<Option<u32>, BadLimit>
    ensures { result ≡ from_held held }
{
    let Ok(value) = held else {
        return Err(BadLimit);
    };
    from_value(value)
}

// The limit that the parameters from `from` to `to` announce, if they announce one, where they are known to be readable.
#[tactic(auto, unfolding(crate::specs::Announced::limit_in))]
pub fn limit_in(s: &[u8], from: usize, to: usize) -> Result<Option<u32>, BadLimit>
    ensures { result ≡ limit_in s.now from to }
{
    let Some(place) = params::find(s, from, to, b"max_message_bytes") else {
        return Ok(None);
    };
    from_held(value_at(s, place.at, place.at + place.length))
}

// The limit that holds from there on: 50,000,000 where none is announced, and 0 where it is refused.
pub fn announced_limit(announced: Result<Option<u32>, BadLimit>) -> u32
    ensures { result ≡ announced_limit announced }
{
    match announced {
        Ok(None) => 50000000,
        Ok(Some(limit)) => limit,
        Err(_) => 0,
    }
}
