// The OPEN data frame as a client writes it.
#![tactic(auto)]

ghost use Rattle.std.specs.Prelude.{◌≡◌, ◌+◌, ◌≤◌, length};
ghost use Rattle.bytes_be.specs.Part.{put_at};
ghost use Rattle.wire.specs.Varint.{varint_length};
ghost use Rattle.wire.specs.Written.{bytes_field};
ghost use Rattle.open.specs.Offer.{offer_in};
ghost use Rattle.open_write.specs.Frame.{good_name, good_format, socket_of, socket_field, format_field, parameters_field, frame_for, given_of, bad_number, written};

use numbered::Numbered;
use open::Offer;

// A name or a format that an OPEN cannot have.
#[derive(Clone, Copy)]
pub struct BadOffer;

impl Numbered for BadOffer {
    ghost number = { bad_number };

    fn number(&self) -> u8 {
        34
    }
}

#[tactic(auto, unfolding(crate::specs::Frame::good_name))]
fn good_name(name: &[u8]) -> bool
    ensures { result ≡ good_name name.now }
{
    let length = name.len();
    (1 <= length) & (length <= 255) & utf8::well_formed(name)
}

#[tactic(auto, unfolding(crate::specs::Frame::good_format))]
fn good_format(format: &[u8]) -> bool
    ensures { result ≡ good_format format.now }
{
    (format.len() <= 255) & utf8::well_formed(format)
}

// The socket that a client of this flow asks for: 1 (INPUT) for a producer, 2 (OUTPUT) for a consumer.
fn socket_of(flow: u8) -> u8
    ensures { result ≡ socket_of flow }
{
    if flow == 1 {
        return 1;
    }
    2
}

// How many bytes a field takes that holds these and has a tag of one byte.
fn field_length(bytes: &[u8]) -> usize
    requires { length bytes.now ≤ 255 }
    ensures { result ≡ 1 + varint_length (length bytes.now) + length bytes.now }
{
    let length = bytes.len();
    1 + wire::varint_length(length as u64) + length
}

fn format_length(format: &[u8]) -> usize
    requires { length format.now ≤ 255 }
    ensures { result ≡ length (format_field format.now) }
{
    if format.len() == 0 {
        return 0;
    }
    field_length(format)
}

fn parameters_length(limit: u32) -> usize
    ensures { result ≡ length (parameters_field limit) }
{
    if limit == 50000000 {
        return 0;
    }
    // The number's eight bytes stand behind the Struct's others.
    26 + 8
}

// How many bytes the frame takes: a tag and a socket have one each, whatever the flow.
fn frame_length(flow: u8, offer: Offer, limit: u32) -> usize
    requires { (length offer.name.now ≤ 255) × (length offer.format.now ≤ 255) }
    ensures { result ≡ length (frame_for flow (offer_in offer.entry) limit) }
{
    field_length(offer.name) + 2 + format_length(offer.format) + parameters_length(limit)
}

// Stores a field that holds bytes, and answers the place behind it.
fn store_bytes(out: &mut [u8], at: usize, number: u64, bytes: &[u8]) -> usize
    requires { (number ≤ 15) × (at + length (bytes_field number bytes.now) ≤ length out.old) }
    ensures stored { out.new ≡ put_at out.old at (bytes_field number bytes.now) }
    ensures behind { result ≡ at + length (bytes_field number bytes.now) }
{
    let length = bytes.len();
    let sized = at + 1;
    wire::store_varint(out, at, number * 8 + 2);
    wire::store_varint(out, sized, length as u64);
    let first = sized + wire::varint_length(length as u64);
    bytes_be::copy_at(out, first, bytes);
    first + length
}

// Stores the socket that a client of this flow asks for.
fn store_socket(out: &mut [u8], at: usize, flow: u8)
    ensures { out.new ≡ put_at out.old at (socket_field flow) }
{
    bytes_be::copy_at(out, at, &[0x10, socket_of(flow)]);
}

// Stores the format unless it is empty, and answers the place behind it.
fn store_format(out: &mut [u8], at: usize, format: &[u8]) -> usize
    requires { at + length (format_field format.now) ≤ length out.old }
    ensures stored { out.new ≡ put_at out.old at (format_field format.now) }
    ensures behind { result ≡ at + length (format_field format.now) }
{
    if format.len() != 0 {
        return store_bytes(out, at, 3, format);
    }
    at
}

// Stores the limit as a parameter unless it is 50,000,000: the Struct with its entry, the key, the Value with its number.
fn store_parameters(out: &mut [u8], at: usize, limit: u32)
    requires { at + length (parameters_field limit) ≤ length out.old }
    ensures { out.new ≡ put_at out.old at (parameters_field limit) }
{
    if limit != 50000000 {
        let number = double::bytes_of(limit);
        bytes_be::copy_at(out, at, &[0x22, 32, 0x0A, 30, 0x0A, 17]);
        bytes_be::copy_at(out, at + 6, b"max_message_bytes");
        bytes_be::copy_at(out, at + 23, &[0x12, 9, 0x11]);
        bytes_be::copy_at(out, at + 26, &number);
    }
}

// How many bytes the frame of a client of this flow has, where the name has 1 to 255 bytes and the format at most 255, all of UTF-8.
pub fn given_of(flow: u8, offer: Offer, limit: u32) -> Result<usize, BadOffer>
    ensures { result ≡ given_of flow (offer_in offer.entry) limit }
{
    let good = good_name(offer.name) & good_format(offer.format);
    if good {
        return Ok(frame_length(flow, offer, limit));
    }
    Err(BadOffer)
}

// Writes the frame of a client of this flow from place `at` on. Where it has no room there, or 34 refuses name or format, `out` stays as it
// is.
pub fn write(out: &mut [u8], at: usize, flow: u8, offer: Offer, limit: u32)
    ensures { out.new ≡ written flow (offer_in offer.entry) limit at out.old }
{
    let Ok(length) = given_of(flow, offer, limit) else {
        return;
    };
    let fits = bytes_be::holds(out.len(), at, length);
    if fits {
        let socket = store_bytes(out, at, 1, offer.name);
        store_socket(out, socket, flow);
        let parameters = store_format(out, socket + 2, offer.format);
        store_parameters(out, parameters, limit);
    }
}
