// Sending: which of an endpoint's own messages is allowed, what it writes, and what the endpoint becomes.
#![tactic(auto)]

ghost use Rattle.std.specs.Prelude.{◌≡◌, [], Ok, false, ltb, eqb, refl};
ghost use Rattle.std.proofs.Common.{rules};
ghost use Rattle.control.specs.Frame.{bytes_of};
ghost use Rattle.numbered.specs.Numbered.{number_of};
ghost use Rattle.open.specs.Offer.{offer_in};
ghost use Rattle.sending.specs.Calls.{Given as Body-as-Given, body_in, datum_with, OPEN, READY, DATA, NOOP, CLOSE, miscoded, number_if, flags_for, bundle_with};
ghost use Rattle.sending.specs.Held.{plain, frame_size};
ghost use Rattle.sending.specs.Numbers.{refusal_number, number_in, outgoing_in};
ghost use Rattle.sending.specs.declared.Refusal.TheVariants.{BadState as State, NoRoom as Room, Closed as Shut, NotAllowed as Barred, AboveOffer as Above, Full as Awaited, TooLarge as Large, BadOffer as Offered, BadCode as Coded};
ghost use Rattle.sending.specs.Sending.{send_row, is_full, number_for, asked_by, numbered_as, sent_as, sent_if, sent_by, Answered, SendAnswer};

use control::MessageType;
use endpoint::{Endpoint, Entry};
use numbered::Numbered;
use open::Offer;
use open_write::BadOffer;
use std::num::NonZeroU8;
use table::Step;

// Why a message is not sent.
#[derive(Clone, Copy, Debug, PartialEq, Eq)]
pub enum Refusal {
    // The record is not good.
    BadState,
    // The output is too short for the message.
    NoRoom,
    // The pipe is closed.
    Closed,
    // Role, flow or phase does not allow the message now.
    NotAllowed,
    // A READY counts more than was offered.
    AboveOffer,
    // An ask with sixteen confirmations awaited.
    Full,
    // DATA is above the limit.
    TooLarge,
    // A bad pipe name or format.
    BadOffer,
    // A code that CLOSE may not have.
    BadCode,
}

impl Numbered for Refusal {
    ghost number = { refusal_number };

    fn number(&self) -> u8 {
        match self {
            Refusal::BadState => 1,
            Refusal::NoRoom => 2,
            Refusal::Closed => 3,
            Refusal::NotAllowed => 30,
            Refusal::AboveOffer => 31,
            Refusal::Full => 32,
            Refusal::TooLarge => 33,
            Refusal::BadOffer => BadOffer.number(),
            Refusal::BadCode => 35,
        }
    }
}

// An error that tells by its number why an own message is not sent: each refusal of this crate, and what a test of the caller's own refuses.
pub trait Refuses: Copy + Numbered {
    // The error for this refusal.
    fn of(why: Refusal) -> Self
        ensures { Self.number result ≡ refusal_number why };

    // What is refused has a number.
    ghost numbered: { (why : Self) → eqb (Self.number why) 0 ≡ false };
}

impl Refuses for Refusal {
    fn of(why: Refusal) -> Refusal {
        why
    }

    ghost numbered = { elim [ State ↦ refl | Room ↦ refl | Shut ↦ refl | Barred ↦ refl | Above ↦ refl | Awaited ↦ refl | Large ↦ refl | Offered ↦ refl | Coded ↦ refl ] };
}

// A number alone, where a caller's own test has no error type.
impl Refuses for NonZeroU8 {
    fn of(why: Refusal) -> NonZeroU8 {
        NonZeroU8::new(why.number()).unwrap_or(NonZeroU8::MAX)
    }

    ghost numbered = { λ why. Prim.search rules };
}

// What a send of DATA is told beside the body.
#[derive(Clone, Copy)]
pub struct Report {
    pub type_data: u16,
    // Whether it asks for a confirmation.
    pub ask: bool,
}

// What is to be tested of an own message.
#[derive(Clone, Copy)]
pub struct Outgoing<Why = Refusal> {
    pub message: MessageType,
    pub type_data: u16,
    // Whether it asks for a confirmation.
    pub ask: bool,
    // What refuses this type of message alone; of the sends TooLarge, BadOffer or BadCode.
    pub own: Option<Why>,
    // How many bytes its bundle has.
    pub length: usize,
}

// What comes of a send that is accepted.
#[derive(Clone, Copy)]
pub struct Sent {
    pub next: Endpoint,
    // How many bytes of the output are the message.
    pub written: usize,
}

#[tactic(auto, unfolding(crate::specs::Sending::send_row))]
fn send_row<Why: Refuses>(e: Endpoint, o: Outgoing<Why>) -> Result<Step, table::Refusal>
    ensures { result ≡ send_row e (outgoing_in Why.number o) }
{
    let message = o.message;
    table::row_of(e.role, e.flow, e.phase, e.n, message, o.type_data)
}

// The first test that refuses.
#[tactic(auto, unfolding(crate::specs::Sending::number_for))]
fn tested<Why: Refuses>(
    e: Endpoint,
    o: Outgoing<Why>,
    row: Result<Step, table::Refusal>,
    room: usize,
) -> Result<(), Why>
    ensures { number_of Why.number result ≡ number_for e (outgoing_in Why.number o) row room }
{
    if !e.good() {
        return Err(Why::of(Refusal::BadState));
    }
    if e.phase == 5 {
        return Err(Why::of(Refusal::Closed));
    }
    match row {
        Err(table::Refusal::NotAllowed) => return Err(Why::of(Refusal::NotAllowed)),
        Err(table::Refusal::AboveOffer) => return Err(Why::of(Refusal::AboveOffer)),
        Ok(_) => {}
    }
    if is_full(e, o) {
        return Err(Why::of(Refusal::Full));
    }
    if let Some(why) = o.own {
        return Err(why);
    }
    if room < o.length {
        return Err(Why::of(Refusal::NoRoom));
    }
    Ok(())
}

// An ask with sixteen confirmations awaited.
#[tactic(auto, unfolding(crate::specs::Sending::is_full))]
fn is_full<Why: Refuses>(e: Endpoint, o: Outgoing<Why>) -> bool
    ensures { result ≡ is_full e (outgoing_in Why.number o) }
{
    o.ask & (16 <= e.w)
}

#[tactic(auto, unfolding(crate::specs::Sending::asked_by))]
fn asked_by<Why: Refuses>(e: Endpoint, o: Outgoing<Why>) -> Endpoint
    ensures { result ≡ asked_by e (outgoing_in Why.number o) }
{
    let message = o.message;
    let entry = Entry {
        message: u8::from(message),
        type_data: o.type_data,
    };
    if o.ask {
        return e.asked(entry);
    }
    e
}

// What comes of a message that no test refuses.
fn accepted<Why: Refuses>(e: Endpoint, o: Outgoing<Why>, row: Result<Step, table::Refusal>) -> Sent
    ensures { sent_as e (Ok result) ≡ sent_if 0 e (outgoing_in Why.number o) row }
{
    Sent {
        next: asked_by(table::moved(e, row), o),
        written: o.length,
    }
}

// What comes of an own message where the output has so much room, before anything is written. A good record stays good by what is tested of a
// call; of any other message that is not said.
pub fn decide<Why: Refuses>(e: Endpoint, o: Outgoing<Why>, room: usize) -> Result<Sent, Why>
    ensures { numbered_as Why.number e result ≡ sent_by e (outgoing_in Why.number o) room }
{
    let row = send_row(e, o);
    tested(e, o, row, room)?;
    Ok(accepted(e, o, row))
}

fn flags_for(ask: bool) -> u8
    ensures { result ≡ flags_for ask }
{
    if ask {
        return 1;
    }
    0
}

fn control_frame(message: MessageType, ask: bool, type_data: u16) -> [u8; 8]
    ensures { result ≡ bytes_of message (flags_for ask) type_data }
{
    control::bytes_of(message, flags_for(ask), type_data)
}

// Sends a message without a data frame.
#[tactic(auto, using(crate::proofs::Decided::wrote_nothing, crate::proofs::Decided::plain_decided))]
fn send_plain(
    e: Endpoint,
    message: MessageType,
    type_data: u16,
    ask: bool,
    own: Option<Refusal>,
    out: &mut [u8],
) -> Result<Sent, Refusal>
    ensures { Answered e (plain message type_data ask (number_in own)) (bundle_with message ask type_data []) out.old result out.new }
{
    let o = Outgoing {
        message,
        type_data,
        ask,
        own,
        length: 14,
    };
    let sent = decide(e, o, out.len())?;
    bundle::write_one(out, control_frame(message, ask, type_data));
    Ok(sent)
}

// Sends READY with this count.
pub fn send_ready(e: Endpoint, count: u16, out: &mut [u8]) -> Result<Sent, Refusal>
    ensures { SendAnswer e (READY count) out.old result out.new }
{
    send_plain(e, MessageType::Ready, count, false, None, out)
}

// Sends NOOP, with an ask for confirmation or without.
pub fn send_noop(e: Endpoint, type_data: u16, ask: bool, out: &mut [u8]) -> Result<Sent, Refusal>
    ensures { SendAnswer e (NOOP type_data ask) out.old result out.new }
{
    send_plain(e, MessageType::Noop, type_data, ask, None, out)
}

#[tactic(auto, unfolding(crate::specs::Calls::miscoded, crate::specs::Calls::good_code))]
fn is_miscoded(e: Endpoint, code: u16) -> bool
    ensures { result ≡ miscoded e code }
{
    !((code <= 6) | (((100 <= code) & (code <= 103)) & ((e.role == 2) & (e.phase == 1))))
}

// Sends CLOSE with this code.
#[tactic(auto, unfolding(crate::specs::Calls::number_if))]
pub fn send_close(e: Endpoint, code: u16, out: &mut [u8]) -> Result<Sent, Refusal>
    ensures { SendAnswer e (CLOSE code) out.old result out.new }
{
    let own = is_miscoded(e, code).then_some(Refusal::BadCode);
    send_plain(e, MessageType::Close, code, false, own, out)
}

// Refuses DATA of this many bytes above the limit.
#[tactic(auto, unfolding(crate::specs::Calls::number_if))]
fn too_large(e: Endpoint, size: usize) -> Option<Refusal>
    ensures { number_in result ≡ number_if (ltb e.limit size) 33 }
{
    ((e.limit as usize) < size).then_some(Refusal::TooLarge)
}

// Sends DATA with this body, which is copied once.
fn send_body(e: Endpoint, report: Report, body: &[u8], out: &mut [u8]) -> Result<Sent, Refusal>
    ensures { SendAnswer e (DATA (datum_with report (Body-as-Given body.now))) out.old result out.new }
{
    let own = too_large(e, 8 + body.len());
    let length = 18 + body.len();
    let o = Outgoing {
        message: MessageType::Data,
        type_data: report.type_data,
        ask: report.ask,
        own,
        length,
    };
    let sent = decide(e, o, out.len())?;
    let frame = control_frame(MessageType::Data, report.ask, report.type_data);
    bundle::write_two(out, frame, body);
    Ok(sent)
}

// Sends DATA with this body, or without one.
#[tactic(auto, unfolding(crate::specs::Calls::above_limit))]
pub fn send_data(
    e: Endpoint,
    report: Report,
    body: Option<&[u8]>,
    out: &mut [u8],
) -> Result<Sent, Refusal>
    ensures { SendAnswer e (DATA (datum_with report (body_in body.entry))) out.old result out.new }
{
    let Some(body) = body else {
        let own = too_large(e, 8);
        return send_plain(e, MessageType::Data, report.type_data, report.ask, own, out);
    };
    send_body(e, report, body, out)
}

// How many bytes the frame of an OPEN has; 0 where 34 refuses it.
fn frame_size(given: Result<usize, BadOffer>) -> usize
    ensures { result ≡ frame_size given }
{
    given.unwrap_or(0)
}

// Sends OPEN for this pipe name and this format.
pub fn send_open(e: Endpoint, offer: Offer, out: &mut [u8]) -> Result<Sent, Refusal>
    ensures { SendAnswer e (OPEN (offer_in offer.entry)) out.old result out.new }
{
    let given = open_write::given_of(e.flow, offer, e.limit);
    let frame = frame_size(given);
    let o = Outgoing {
        message: MessageType::Open,
        type_data: 0,
        ask: false,
        own: given.is_err().then_some(Refusal::BadOffer),
        length: 18 + frame,
    };
    let sent = decide(e, o, out.len())?;
    bundle::write_head(
        out,
        control_frame(MessageType::Open, false, 0),
        frame as u32,
    );
    open_write::write(out, 18, e.flow, offer, e.limit);
    Ok(sent)
}
