// The entries of the interface: numbers and byte slices in, a number out. The crate fbdp_c exports each to C.
#![tactic(auto)]

ghost use Rattle.std.specs.Prelude.{◌≡◌, ◌≤◌};
ghost use Rattle.open.specs.Offer.{offer_of};
ghost use Rattle.endpoint.specs.Block.{load_of};
ghost use Rattle.endpoint.specs.Record.{fresh_client, fresh_server};
ghost use Rattle.receiving.specs.Numbers.{answer_as};
ghost use Rattle.receiving.specs.Receiving.{answer_number};
ghost use Rattle.sending.specs.Calls.{body_in, OPEN, READY, DATA, NOOP, CLOSE};
ghost use Rattle.sending.specs.Options.{asking, is_chosen};
ghost use Rattle.sending.specs.Sending.{sent_as};
ghost use Rattle.fbdp.specs.Blocks.{MakeAnswer, Kept, Finished, report_of, body_of, datum_of, SendOnBlock, reply_length, stays, ReceiveOnBlock};
ghost use Rattle.fbdp.specs.Slots.{carried_in_order, in_order, carries_of, heard_slots, refused_slots, answer_slots};
ghost use Rattle.fbdp.specs.Entries.{InterfaceAnswer, frame_slots, FrameAnswer, value_slots, ValueAnswer, term_slots, LookupAnswer};

use bundle::BadBundle;
use bytes_be::Place;
use control::Control;
use endpoint::{BadMaking, Endpoint};
use numbered::Numbered;
use open::Offer;
use receiving::{Answer, Content, Heard};
use sending::{Refusal, Report, Sent};
use terms::{Term, Value};
use wire::Fault;

// The number of the interface, which the name of the function has too.
pub fn fbdp_interface_3() -> u32
    ensures { InterfaceAnswer result }
{
    3
}

fn frame_slots(frame: Result<Option<Place>, BadBundle>) -> [u64; 3]
    ensures { result ≡ frame_slots frame }
{
    match frame {
        Ok(Some(place)) => {
            let at = place.at as u64;
            let length = place.length as u64;
            [1, at, length]
        }
        Ok(None) => [0, 0, 0],
        Err(_) => [0, 0, 0],
    }
}

// The place of the frame at `index` of a bundle, counted from 0.
pub fn fbdp_frame(bundle: &[u8], index: u32, slots: &mut [u64; 3]) -> u32
    ensures { FrameAnswer bundle.now index result slots.new }
{
    let frame = bundle::frame_at(bundle, index as usize);
    *slots = frame_slots(frame);
    numbered::number_of(&frame) as u32
}

fn value_slots(value: Result<Value, Fault>) -> [u64; 3]
    ensures { result ≡ value_slots value }
{
    match value {
        Ok(Value::Null) => [1, 0, 0],
        Ok(Value::Number { double: _, bits }) => [2, bits, 0],
        Ok(Value::Text(place)) => [3, place.at as u64, place.length as u64],
        Ok(Value::Boolean(truth)) => [4, u64::from(truth), 0],
        Ok(Value::Struct) => [5, 0, 0],
        Ok(Value::List) => [6, 0, 0],
        Err(_) => [0, 0, 0],
    }
}

// What a Value that is lent alone holds.
pub fn fbdp_value(bytes: &[u8], slots: &mut [u64; 3]) -> u32
    ensures { ValueAnswer bytes.now result slots.new }
{
    let value = terms::value_of(bytes);
    *slots = value_slots(value);
    numbered::number_of(&value) as u32
}

fn term_slots(answer: Result<Term, terms::Refusal>) -> [u64; 3]
    ensures { result ≡ term_slots answer }
{
    let Ok(Term { layer, place }) = answer else {
        return [1, 0, 0];
    };
    [layer as u64 + 1, place.at as u64, place.length as u64]
}

// Where the Value of a key stands in the client's parameters, and failing that in the default Struct.
pub fn fbdp_lookup(client: &[u8], defaults: &[u8], key: &[u8], slots: &mut [u64; 3]) -> u32
    ensures { LookupAnswer client.now defaults.now key.now result slots.new }
{
    let answer = terms::term_of(client, defaults, key);
    *slots = term_slots(answer);
    numbered::number_of(&answer) as u32
}

// Keeps what was made in a block of 64 bytes.
#[tactic(auto, unfolding(crate::specs::Blocks::make_number, crate::specs::Blocks::stored))]
fn keep(made: Result<Endpoint, BadMaking>, block: &mut [u8]) -> u32
    ensures { Kept made block.old result block.new }
{
    if block.len() != 64 {
        return 1;
    }
    match made {
        Ok(fresh) => {
            fresh.store(block);
            0
        }
        Err(bad) => bad.number() as u32,
    }
}

// Makes a fresh client of this flow and limit.
pub fn fbdp_make_client(block: &mut [u8], flow: u8, limit: u32) -> u32
    ensures { MakeAnswer (fresh_client flow limit) block.old result block.new }
{
    keep(endpoint::make_client(flow, limit), block)
}

// Makes a fresh server of this flow.
pub fn fbdp_make_server(block: &mut [u8], flow: u8) -> u32
    ensures { MakeAnswer (fresh_server flow) block.old result block.new }
{
    keep(endpoint::make_server(flow), block)
}

// Tells what came of a send, and stores the endpoint unless the send was refused.
#[tactic(auto, unfolding(crate::specs::Blocks::kept_after, crate::specs::Blocks::stored))]
fn finish(sent: Result<Sent, Refusal>, block: &mut [u8], written: &mut u64) -> u32
    ensures { Finished (sent_as (load_of block.old) sent) block.old result written.new block.new }
{
    match sent {
        Ok(sent) => {
            sent.next.store(block);
            *written = sent.written as u64;
            0
        }
        Err(why) => {
            *written = 0;
            why.number() as u32
        }
    }
}

// Whether an option, which is a bit, is among those given.
fn is_chosen(option: u8, how: u8) -> bool
    requires { 1 ≤ option }
    ensures { result ≡ is_chosen option how }
{
    how / option % 2 == 1
}

fn report_of(type_data: u16, how: u8) -> Report
    ensures { result ≡ report_of type_data how }
{
    Report {
        type_data,
        ask: is_chosen(1, how),
    }
}

// The bytes that are lent for a body, which are not looked at where there is to be none.
fn body_of(how: u8, lent: &[u8]) -> Option<&[u8]>
    ensures { body_in result ≡ body_of how lent.now }
{
    if is_chosen(2, how) {
        return None;
    }
    Some(lent)
}

// Sends OPEN for this pipe name and this format.
pub fn fbdp_send_open(
    block: &mut [u8],
    name: &[u8],
    format: &[u8],
    out: &mut [u8],
    written: &mut u64,
) -> u32
    ensures { SendOnBlock (OPEN (offer_of name.now format.now)) block.old out.old result written.new block.new out.new }
{
    let e = Endpoint::load(block);
    finish(
        sending::send_open(e, Offer { name, format }, out),
        block,
        written,
    )
}

// Sends READY with this count.
pub fn fbdp_send_ready(block: &mut [u8], count: u16, out: &mut [u8], written: &mut u64) -> u32
    ensures { SendOnBlock (READY count) block.old out.old result written.new block.new out.new }
{
    let e = Endpoint::load(block);
    finish(sending::send_ready(e, count, out), block, written)
}

// Sends DATA with this body, or without one.
pub fn fbdp_send_data(
    block: &mut [u8],
    type_data: u16,
    how: u8,
    body: &[u8],
    out: &mut [u8],
    written: &mut u64,
) -> u32
    ensures { SendOnBlock (DATA (datum_of type_data how body.now)) block.old out.old result written.new block.new out.new }
{
    let e = Endpoint::load(block);
    let report = report_of(type_data, how);
    finish(
        sending::send_data(e, report, body_of(how, body), out),
        block,
        written,
    )
}

// Sends NOOP.
pub fn fbdp_send_noop(
    block: &mut [u8],
    type_data: u16,
    how: u8,
    out: &mut [u8],
    written: &mut u64,
) -> u32
    ensures { SendOnBlock (NOOP type_data (is_chosen asking how)) block.old out.old result written.new block.new out.new }
{
    let e = Endpoint::load(block);
    let ask = is_chosen(1, how);
    finish(sending::send_noop(e, type_data, ask, out), block, written)
}

// Sends CLOSE with this code.
pub fn fbdp_send_close(block: &mut [u8], code: u16, out: &mut [u8], written: &mut u64) -> u32
    ensures { SendOnBlock (CLOSE code) block.old out.old result written.new block.new out.new }
{
    let e = Endpoint::load(block);
    finish(sending::send_close(e, code, out), block, written)
}

fn answer_number(answer: Answer) -> u8
    ensures { result ≡ answer_number (answer_as answer) }
{
    match answer {
        Answer::Heard(_) => 0,
        Answer::Stays(refusal) | Answer::Closes(refusal) => refusal.number(),
    }
}

#[tactic(auto, using(bundle::proofs::Outputs::one_long, control::proofs::Round::length_control))]
fn reply_length(reply: Option<Control>) -> u64
    ensures { result ≡ reply_length reply }
{
    match reply {
        Some(_) => 14,
        None => 0,
    }
}

// Socket, and the places of name, format, parameters and body.
fn content_slots(content: Content) -> [u64; 9]
    ensures { result ≡ carried_in_order (carries_of content) }
{
    match content {
        Content::Nothing => [0, 0, 0, 0, 0, 0, 0, 0, 0],
        Content::Opening(opening) => [
            opening.socket,
            opening.name.at as u64,
            opening.name.length as u64,
            opening.format.at as u64,
            opening.format.length as u64,
            opening.parameters.at as u64,
            opening.parameters.length as u64,
            0,
            0,
        ],
        Content::Body(place) => [0, 0, 0, 0, 0, 0, 0, place.at as u64, place.length as u64],
    }
}

#[tactic(auto, unfolding(crate::specs::Slots::heard_slots))]
fn heard_slots(heard: Heard, reply: u64) -> [u64; 16]
    ensures { result ≡ in_order (heard_slots heard reply) }
{
    let said = content_slots(heard.content);
    [
        u8::from(heard.message) as u64,
        heard.flags as u64,
        heard.type_data as u64,
        reply,
        heard.frames as u64,
        said[0],
        said[1],
        said[2],
        said[3],
        said[4],
        said[5],
        said[6],
        said[7],
        said[8],
        0,
        0,
    ]
}

// A refusal says only how long its reply is.
fn refused_slots(reply: u64) -> [u64; 16]
    ensures { result ≡ in_order (refused_slots reply) }
{
    [0, 0, 0, reply, 0, 0, 0, 0, 0, 0, 0, 0, 0, 0, 0, 0]
}

fn answer_slots(answer: Answer, reply: u64) -> [u64; 16]
    ensures { result ≡ in_order (answer_slots (answer_as answer) reply) }
{
    match answer {
        Answer::Heard(heard) => heard_slots(heard, reply),
        Answer::Stays(_) | Answer::Closes(_) => refused_slots(reply),
    }
}

// Whether an answer changes no byte.
fn is_staying(answer: Answer) -> bool
    ensures { result ≡ stays (answer_as answer) }
{
    matches!(answer, Answer::Stays(_))
}

// Receives a message.
#[tactic(auto, unfolding(crate::specs::Blocks::kept_by, crate::specs::Blocks::stored))]
pub fn fbdp_receive(
    block: &mut [u8],
    message: &[u8],
    name: &[u8],
    format: &[u8],
    out: &mut [u8],
    heard: &mut [u64; 16],
) -> u32
    ensures { ReceiveOnBlock message.now (offer_of name.now format.now) block.old out.old result heard.new block.new out.new }
{
    let e = Endpoint::load(block);
    let received = receiving::receive(e, message, Offer { name, format }, out);
    *heard = answer_slots(received.answer, reply_length(received.reply));
    let number = answer_number(received.answer) as u32;
    if is_staying(received.answer) {
        return number;
    }
    received.next.store(block);
    number
}
