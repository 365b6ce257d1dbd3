// Parts of the library, exported for the comparison.
#![tactic(auto)]

ghost use Rattle.std.specs.Prelude.{◌≡◌, cond, ◌-◌, eqb};
ghost use Rattle.bytes_be.specs.Part.{put_at};
ghost use Rattle.bytes_be.specs.Number.{number_at, to_bytes};
ghost use Rattle.control.specs.Frame.{known_type_of};
ghost use Rattle.double.specs.Double.{bytes_of};
ghost use Rattle.line.specs.Report.{report_of, line_of, Put};
ghost use Rattle.open.specs.declared.Refusal.TheVariants.{Unreadable};
ghost use Rattle.open.specs.Offer.{offer_of};
ghost use Rattle.open.specs.Open.{heard_by};
ghost use Rattle.utf8.specs.Text.{well_formed};
ghost use Rattle.probe.specs.Entries.{contents_slots, ContentsAnswer, handed_slots, HandOutAnswer, control_slots, ControlAnswer, bodies, Wrote, kind_number, reading_number, reading_slots, FieldAnswer, Stored, check_of, check_slots, CheckAnswer, announced_slots, if_readable, LimitAnswer, flow_of, opening_slots, refusal_slots, open_slots, OpenAnswer, given_length, OpenFrameAnswer};

use bundle::{BadBundle, Contents};
use bytes_be::Place;
use control::{Control, MessageType};
use open::{Offer, Opening, Refusal};
use open_write::BadOffer;
use terms::BadLimit;
use wire::{Fault, Field, Kind};

#[unsafe(no_mangle)]
pub extern "C" fn probe_read8(bytes: &[u8], at: usize) -> u8
    ensures { result ≡ number_at 1 bytes.now at }
{
    bytes_be::read(bytes, at)
}

#[unsafe(no_mangle)]
pub extern "C" fn probe_read16(bytes: &[u8], at: usize) -> u16
    ensures { result ≡ number_at 2 bytes.now at }
{
    bytes_be::read(bytes, at)
}

#[unsafe(no_mangle)]
pub extern "C" fn probe_read32(bytes: &[u8], at: usize) -> u32
    ensures { result ≡ number_at 4 bytes.now at }
{
    bytes_be::read(bytes, at)
}

#[unsafe(no_mangle)]
pub extern "C" fn probe_read64(bytes: &[u8], at: usize) -> u64
    ensures { result ≡ number_at 8 bytes.now at }
{
    bytes_be::read(bytes, at)
}

#[unsafe(no_mangle)]
pub extern "C" fn probe_store16(out: &mut [u8], at: usize, number: u16)
    ensures { out.new ≡ put_at out.old at (to_bytes 2 number) }
{
    bytes_be::store(out, at, number)
}

#[unsafe(no_mangle)]
pub extern "C" fn probe_store32(out: &mut [u8], at: usize, number: u32)
    ensures { out.new ≡ put_at out.old at (to_bytes 4 number) }
{
    bytes_be::store(out, at, number)
}

#[unsafe(no_mangle)]
pub extern "C" fn probe_store64(out: &mut [u8], at: usize, number: u64)
    ensures { out.new ≡ put_at out.old at (to_bytes 8 number) }
{
    bytes_be::store(out, at, number)
}

#[unsafe(no_mangle)]
pub extern "C" fn probe_copy(out: &mut [u8], at: usize, bytes: &[u8])
    ensures { out.new ≡ put_at out.old at bytes.now }
{
    bytes_be::copy_at(out, at, bytes)
}

fn contents_slots(contents: Result<Contents, BadBundle>) -> [u64; 4]
    ensures { result ≡ contents_slots contents }
{
    match contents {
        Ok(contents) => {
            let at = contents.control.at as u64;
            let length = contents.control.length as u64;
            [contents.count as u64, at, length, contents.size]
        }
        Err(_) => [0, 0, 0, 0],
    }
}

#[unsafe(no_mangle)]
pub extern "C" fn probe_contents(bundle: &[u8], slots: &mut [u64; 4]) -> u32
    ensures { ContentsAnswer bundle.now result slots.new }
{
    let contents = bundle::contents_of(bundle);
    *slots = contents_slots(contents);
    numbered::number_of(&contents) as u32
}

fn handed_slots(frame: Result<Option<Place>, BadBundle>, position: usize) -> [u64; 4]
    ensures { result ≡ handed_slots frame position }
{
    let next = position as u64;
    match frame {
        Ok(Some(place)) => {
            let at = place.at as u64;
            let length = place.length as u64;
            [1, at, length, next]
        }
        Ok(None) => [0, 0, 0, next],
        Err(_) => [0, 0, 0, next],
    }
}

#[unsafe(no_mangle)]
pub extern "C" fn probe_hand_out(bundle: &[u8], position: usize, slots: &mut [u64; 4]) -> u32
    ensures { HandOutAnswer bundle.now position result slots.new }
{
    let handed = frames::hand_out(bundle, position);
    let frame = handed.frame;
    *slots = handed_slots(frame, handed.position);
    numbered::number_of(&frame) as u32
}

fn control_slots(control: Result<Control, control::Refusal>) -> [u64; 3]
    ensures { result ≡ control_slots control }
{
    match control {
        Ok(control) => [
            u8::from(control.message) as u64,
            control.flags as u64,
            control.type_data as u64,
        ],
        Err(_) => [0, 0, 0],
    }
}

#[unsafe(no_mangle)]
pub extern "C" fn probe_control(frame: &[u8], slots: &mut [u64; 3]) -> u32
    ensures { ControlAnswer frame.now result slots.new }
{
    let control = control::read(frame);
    *slots = control_slots(control);
    numbered::number_of(&control) as u32
}

#[unsafe(no_mangle)]
pub extern "C" fn probe_write(
    out: &mut [u8],
    number: u8,
    flags: u8,
    type_data: u16,
    with_body: bool,
    body: &[u8],
) -> u64
    ensures { Wrote (known_type_of number) flags type_data (bodies with_body body.now) out.old result out.new }
{
    let Ok(message) = MessageType::try_from(number) else {
        return 0;
    };
    let frame = control::bytes_of(message, flags, type_data);
    if with_body {
        return bundle::write_two(out, frame, body) as u64;
    }
    bundle::write_one(out, frame) as u64
}

#[unsafe(no_mangle)]
pub extern "C" fn probe_line(input: &[u8], text: &mut [u8; 96]) -> u64
    ensures { Put (line_of (report_of input.now)) text.old 0 result text.new }
{
    line::fill(input, text) as u64
}

#[unsafe(no_mangle)]
pub extern "C" fn probe_text(bytes: &[u8]) -> bool
    ensures { result ≡ well_formed bytes.now }
{
    utf8::well_formed(bytes)
}

fn kind_number(kind: Kind) -> u8
    ensures { result ≡ kind_number kind }
{
    match kind {
        Kind::CutShort => 1,
        Kind::BadVarint => 2,
        Kind::WireType => 3,
        Kind::Repeated => 4,
        Kind::BadText => 5,
        Kind::Other => 6,
        Kind::TooDeep => 7,
    }
}

fn reading_number(reading: Result<Field, Fault>) -> u8
    ensures { result ≡ reading_number reading }
{
    match reading {
        Ok(_) => 0,
        Err(why) => kind_number(why.kind),
    }
}

// What a varint says, or how many bytes a field of bytes holds.
fn said_by(field: Field) -> u64
    ensures { result ≡ cond (eqb field.wire 2) (field.next - field.at) field.value }
{
    if field.wire != 2 {
        return field.value;
    }
    if field.next < field.at {
        return 0;
    }
    (field.next - field.at) as u64
}

fn reading_slots(reading: Result<Field, Fault>) -> [u64; 5]
    ensures { result ≡ reading_slots reading }
{
    let Ok(field) = reading else {
        return [0, 0, 0, 0, 0];
    };
    [
        field.number,
        field.wire,
        said_by(field),
        field.at as u64,
        field.next as u64,
    ]
}

#[unsafe(no_mangle)]
pub extern "C" fn probe_field(bytes: &[u8], at: usize, end: usize, slots: &mut [u64; 5]) -> u32
    ensures { FieldAnswer bytes.now at end result slots.new }
{
    let reading = wire::field_at(bytes, at, end);
    *slots = reading_slots(reading);
    reading_number(reading) as u32
}

#[unsafe(no_mangle)]
pub extern "C" fn probe_varint(out: &mut [u8], at: usize, number: u64) -> u64
    ensures { Stored out.old at number result out.new }
{
    wire::store_varint(out, at, number);
    wire::varint_length(number) as u64
}

fn check_slots(check: Result<(), Fault>) -> [u64; 2]
    ensures { result ≡ check_slots check }
{
    let Err(why) = check else {
        return [0, 0];
    };
    [kind_number(why.kind) as u64, why.at as u64]
}

fn check_of(bytes: &[u8], value: bool) -> Result<(), Fault>
    ensures { result ≡ check_of value bytes.now }
{
    if value {
        return params::check_alone(bytes);
    }
    params::check_struct(bytes, 0, bytes.len())
}

#[unsafe(no_mangle)]
pub extern "C" fn probe_check(bytes: &[u8], value: bool, slots: &mut [u64; 2]) -> u32
    ensures { CheckAnswer value bytes.now result slots.new }
{
    let check = check_of(bytes, value);
    *slots = check_slots(check);
    numbered::number_of(&check) as u32
}

#[unsafe(no_mangle)]
pub extern "C" fn probe_limit_bytes(number: u32, bytes: &mut [u8; 8])
    ensures { bytes.new ≡ bytes_of number }
{
    *bytes = double::bytes_of(number);
}

fn announced_slots(announced: Result<Option<u32>, BadLimit>) -> [u64; 2]
    ensures { result ≡ announced_slots announced }
{
    match announced {
        Ok(None) => [0, 0],
        Ok(Some(limit)) => [1, limit as u64],
        Err(_) => [2, 0],
    }
}

fn if_readable(check: Result<(), Fault>, slots: [u64; 2]) -> [u64; 2]
    ensures { result ≡ if_readable check slots }
{
    let Ok(()) = check else {
        return [0, 0];
    };
    slots
}

#[unsafe(no_mangle)]
pub extern "C" fn probe_limit(parameters: &[u8], slots: &mut [u64; 2]) -> u32
    ensures { LimitAnswer parameters.now result slots.new }
{
    let check = check_of(parameters, false);
    let announced = terms::limit_in(parameters, 0, parameters.len());
    *slots = if_readable(check, announced_slots(announced));
    numbered::number_of(&check) as u32
}

fn flow_of(producer: bool) -> u8
    ensures { result ≡ flow_of producer }
{
    if producer {
        return 1;
    }
    2
}

fn opening_slots(opening: Opening) -> [u64; 10]
    ensures { result ≡ opening_slots opening }
{
    let announced = opening.announced;
    let limit = terms::announced_limit(announced);
    [
        opening.socket,
        opening.name.at as u64,
        opening.name.length as u64,
        opening.format.at as u64,
        opening.format.length as u64,
        opening.parameters.at as u64,
        opening.parameters.length as u64,
        limit as u64,
        0,
        0,
    ]
}

fn fault_slots(why: Fault) -> [u64; 10]
    ensures { result ≡ refusal_slots (Unreadable why) }
{
    let kind = why.kind;
    [
        0,
        0,
        0,
        0,
        0,
        0,
        0,
        0,
        kind_number(kind) as u64,
        why.at as u64,
    ]
}

fn refusal_slots(refusal: Refusal) -> [u64; 10]
    ensures { result ≡ refusal_slots refusal }
{
    match refusal {
        Refusal::Unreadable(why) => fault_slots(why),
        Refusal::OutOfRange => [0, 0, 0, 0, 0, 0, 0, 0, 0, 0],
        Refusal::UnknownSocket => [0, 0, 0, 0, 0, 0, 0, 0, 0, 0],
        Refusal::OtherPipe => [0, 0, 0, 0, 0, 0, 0, 0, 0, 0],
        Refusal::OtherFormat => [0, 0, 0, 0, 0, 0, 0, 0, 0, 0],
    }
}

fn open_slots(said: Result<Opening, Refusal>) -> [u64; 10]
    ensures { result ≡ open_slots said }
{
    match said {
        Ok(opening) => opening_slots(opening),
        Err(refusal) => refusal_slots(refusal),
    }
}

#[unsafe(no_mangle)]
pub extern "C" fn probe_open(
    message: &[u8],
    at: usize,
    end: usize,
    producer: bool,
    name: &[u8],
    format: &[u8],
    slots: &mut [u64; 10],
) -> u32
    ensures { OpenAnswer (heard_by message.now at end (flow_of producer) (offer_of name.now format.now)) result slots.new }
{
    let said = open::hear(message, at, end, flow_of(producer), Offer { name, format });
    *slots = open_slots(said);
    numbered::number_of(&said) as u32
}

fn given_length(given: Result<usize, BadOffer>) -> u64
    ensures { result ≡ given_length given }
{
    match given {
        Ok(length) => length as u64,
        Err(_) => 0,
    }
}

#[unsafe(no_mangle)]
pub extern "C" fn probe_open_frame(
    out: &mut [u8],
    at: usize,
    producer: bool,
    name: &[u8],
    format: &[u8],
    limit: u32,
    frame_length: &mut u64,
) -> u32
    ensures { OpenFrameAnswer (flow_of producer) (offer_of name.now format.now) limit at out.old result frame_length.new out.new }
{
    let flow = flow_of(producer);
    let offer = Offer { name, format };
    let given = open_write::given_of(flow, offer, limit);
    *frame_length = given_length(given);
    open_write::write(out, at, flow, offer, limit);
    numbered::number_of(&given) as u32
}
