// Receiving: what an endpoint makes of a message, which reply it writes, and what it becomes.
#![tactic(auto)]

ghost use Rattle.std.specs.Prelude.{◌≡◌, ◌+◌, ◌≤◌, length};
ghost use Rattle.open.specs.Offer.{offer_in};
ghost use Rattle.open.specs.Open.{refusal_number as open_number};
ghost use Rattle.message.specs.Reading.{body_place};
ghost use Rattle.receiving.specs.Numbers.{unreadable_number, refusal_number, received_as};
ghost use Rattle.receiving.specs.Refusing.{version_code, close_code, silent, refused, unchanged};
ghost use Rattle.receiving.specs.Hearing.{confirmable, confirms as Hearing·confirms, asks as Hearing·asks, moves_as, hear_row, too_large, body_carried, open_at, carried_by, matches_oldest, unmatched, confirmed_by, limited_by, reply_to, accepted, hear_content, hear_message, hear_of};
ghost use Rattle.receiving.specs.Receiving.{replied, ReceiveAnswer};
ghost use Rattle.receiving.specs.declared.Refusal.TheVariants.{Message as Unread};

use bytes_be::Place;
use control::{Control, MessageType};
use endpoint::Endpoint;
use message::{Message, Reason};
use numbered::Numbered;
use open::{Offer, Opening};
use table::Step;
use wire::{Fault, Kind};

// What is heard beside type, flags and type-data.
#[derive(Clone, Copy)]
pub enum Content {
    // Of DATA too, where its body is missing.
    Nothing,
    Opening(Opening),
    // Where the body of DATA stands in the message.
    Body(Place),
}

#[derive(Clone, Copy)]
pub struct Heard {
    pub message: MessageType,
    pub flags: u8,
    pub type_data: u16,
    // How many data frames the message has.
    pub frames: usize,
    pub content: Content,
}

// Why a message is refused. No two cases have one number of 01, so where an OPEN frame is unreadable stays with `open`.
#[derive(Clone, Copy, Debug, PartialEq, Eq)]
pub enum Refusal {
    // 1.
    BadState,
    // 2.
    ShortOutput,
    // 3.
    Closed,
    // 10 to 15.
    Message(Reason),
    // 16.
    TooLarge,
    // 17.
    NotAllowed,
    // 18.
    Unreadable,
    // 19.
    OutOfRange,
    // 20.
    UnknownSocket,
    // 21.
    OtherPipe,
    // 22.
    OtherFormat,
    // 23.
    AboveOffer,
    // 24.
    Unmatched,
}

impl Numbered for Refusal {
    ghost number = { refusal_number };

    fn number(&self) -> u8 {
        match self {
            Refusal::BadState => 1,
            Refusal::ShortOutput => 2,
            Refusal::Closed => 3,
            Refusal::Message(why) => why.number(),
            Refusal::TooLarge => 16,
            Refusal::NotAllowed => 17,
            Refusal::Unreadable => unreadable_number(),
            Refusal::OutOfRange => open::Refusal::OutOfRange.number(),
            Refusal::UnknownSocket => open::Refusal::UnknownSocket.number(),
            Refusal::OtherPipe => open::Refusal::OtherPipe.number(),
            Refusal::OtherFormat => open::Refusal::OtherFormat.number(),
            Refusal::AboveOffer => 23,
            Refusal::Unmatched => 24,
        }
    }
}

// The number of an OPEN frame that is unreadable: every fault has one number.
fn unreadable_number() -> u8
    ensures { result ≡ unreadable_number }
{
    let fault = Fault {
        kind: Kind::Other,
        at: 0,
    };
    open::Refusal::Unreadable(fault).number()
}

impl From<open::Refusal> for Refusal {
    ghost from_gives = { λ why refusal. refusal_number refusal ≡ open_number why };

    fn from(why: open::Refusal) -> Refusal {
        match why {
            open::Refusal::Unreadable(_) => Self::Unreadable,
            open::Refusal::OutOfRange => Self::OutOfRange,
            open::Refusal::UnknownSocket => Self::UnknownSocket,
            open::Refusal::OtherPipe => Self::OtherPipe,
            open::Refusal::OtherFormat => Self::OtherFormat,
        }
    }
}

// What a receive makes of a message, or why it refuses it.
#[derive(Clone, Copy)]
pub enum Answer {
    Heard(Heard),
    // Nothing changes, and nothing is replied.
    Stays(Refusal),
    // The endpoint closes, and says so by a CLOSE unless it has to be silent.
    Closes(Refusal),
}

#[derive(Clone, Copy)]
pub struct Received {
    pub answer: Answer,
    pub next: Endpoint,
    // A single control frame, if one is written.
    pub reply: Option<Control>,
}

// The CLOSE code for a strange version.
#[tactic(auto, unfolding(crate::specs::Refusing::version_code))]
fn version_code(e: Endpoint, said: u8) -> u16
    ensures { result ≡ version_code e said }
{
    let opens = (said == 1) & (e.role == 2) & (e.phase == 0);
    if opens {
        return 101;
    }
    1
}

// The CLOSE code for a message that can't be read.
#[tactic(auto, unfolding(crate::specs::Refusing::close_code))]
fn unread_code(e: Endpoint, why: Reason, said: u8) -> u16
    ensures { result ≡ close_code e (refusal_number (Unread why)) said }
{
    match why {
        Reason::Control(control::Refusal::OtherVersion) => version_code(e, said),
        Reason::Control(control::Refusal::BadSignature | control::Refusal::UnknownType) => 1,
        Reason::BadBundle | Reason::BadFlags | Reason::BadFrames => 1,
    }
}

// The CLOSE code for a refusal; `said` is the type that the control byte says.
#[tactic(auto, unfolding(crate::specs::Refusing::close_code))]
fn close_code(e: Endpoint, refusal: Refusal, said: u8) -> u16
    ensures { result ≡ close_code e (refusal_number refusal) said }
{
    match refusal {
        Refusal::BadState | Refusal::ShortOutput | Refusal::Closed => 0,
        Refusal::Message(why) => unread_code(e, why, said),
        Refusal::Unreadable => 1,
        Refusal::TooLarge | Refusal::NotAllowed | Refusal::OutOfRange => 2,
        Refusal::AboveOffer | Refusal::Unmatched => 2,
        Refusal::OtherPipe => 100,
        Refusal::UnknownSocket => 102,
        Refusal::OtherFormat => 103,
    }
}

// Whether a refusal writes no reply.
#[tactic(auto, unfolding(crate::specs::Refusing::silent))]
fn is_silent(e: Endpoint, refusal: Refusal, said: u8) -> bool
    ensures { result ≡ silent e (refusal_number refusal) said }
{
    let first = (e.role == 1) & (e.phase == 0);
    match refusal {
        Refusal::NotAllowed => first | (said == 5),
        _ => first,
    }
}

// A refusal that closes.
#[tactic(auto, unfolding(crate::specs::Refusing::refused))]
fn refuse(e: Endpoint, refusal: Refusal, said: u8) -> Received
    ensures { received_as result ≡ refused e (refusal_number refusal) said }
{
    let silent = is_silent(e, refusal, said);
    let next = e.closed();
    if silent {
        return Received {
            answer: Answer::Closes(refusal),
            next,
            reply: None,
        };
    }
    Received {
        answer: Answer::Closes(refusal),
        next,
        reply: Some(Control {
            message: MessageType::Close,
            flags: 0,
            type_data: close_code(e, refusal, said),
        }),
    }
}

// A refusal that changes nothing.
#[tactic(auto, unfolding(crate::specs::Refusing::unchanged))]
fn stay(e: Endpoint, refusal: Refusal) -> Received
    ensures { received_as result ≡ unchanged e (refusal_number refusal) }
{
    Received {
        answer: Answer::Stays(refusal),
        next: e,
        reply: None,
    }
}

// Whether a message of this type is confirmed where it asks for that.
fn is_confirmable(message: MessageType) -> bool
    ensures { result ≡ confirmable message }
{
    match message {
        MessageType::Open => false,
        MessageType::Ready => false,
        MessageType::Noop => true,
        MessageType::Data => true,
        MessageType::Close => false,
    }
}

// Whether a message of this type and these flags is a confirmation.
fn confirms(message: MessageType, flags: u8) -> bool
    ensures { result ≡ Hearing·confirms message flags }
{
    is_confirmable(message) & (flags == 2)
}

// Whether it asks for a confirmation.
fn asks(message: MessageType, flags: u8) -> bool
    ensures { result ≡ Hearing·asks message flags }
{
    is_confirmable(message) & (flags == 1)
}

// A confirmation moves the endpoint as NOOP does.
#[tactic(auto, unfolding(crate::specs::Hearing::moves_as))]
fn moves_as(message: MessageType, flags: u8) -> MessageType
    ensures { result ≡ moves_as message flags }
{
    let quiet = confirms(message, flags);
    if quiet {
        return MessageType::Noop;
    }
    message
}

#[tactic(auto, unfolding(crate::specs::Hearing::hear_row))]
fn hear_row(e: Endpoint, m: Message) -> Result<Step, table::Refusal>
    ensures { result ≡ hear_row e m }
{
    let message = m.message;
    let moves = moves_as(message, m.flags);
    let role = table::other(e.role);
    let flow = table::other(e.flow);
    table::row_of(role, flow, e.phase, e.n, moves, m.type_data)
}

#[tactic(auto, unfolding(crate::specs::Hearing::too_large))]
fn too_large(e: Endpoint, m: Message) -> bool
    ensures { result ≡ too_large e m }
{
    let message = m.message;
    let body = m.body;
    let frame = message::body_place(body);
    let above = (e.limit as u64) < m.size;
    match message {
        MessageType::Open => above | (4096 < frame.length),
        MessageType::Ready => above,
        MessageType::Noop => above,
        MessageType::Data => above,
        MessageType::Close => false,
    }
}

fn body_carried(body: Option<Place>) -> Content
    ensures { result ≡ body_carried body }
{
    match body {
        None => Content::Nothing,
        Some(place) => Content::Body(place),
    }
}

// Whether the oldest confirmation awaited has this type and this type-data.
#[tactic(auto, unfolding(crate::specs::Hearing::matches_oldest))]
fn matches_oldest(e: Endpoint, message: MessageType, type_data: u16) -> bool
    ensures { result ≡ matches_oldest e message type_data }
{
    let oldest = e.oldest();
    (0 < e.w) & (oldest.message == u8::from(message)) & (oldest.type_data == type_data)
}

#[tactic(auto, unfolding(crate::specs::Hearing::unmatched))]
fn is_unmatched(e: Endpoint, m: Message) -> bool
    ensures { result ≡ unmatched e m }
{
    let message = m.message;
    confirms(message, m.flags) & !matches_oldest(e, message, m.type_data)
}

// The endpoint without its oldest entry after a confirmation.
#[tactic(auto, unfolding(crate::specs::Hearing::confirmed_by))]
fn confirmed_by(e: Endpoint, m: Message) -> Endpoint
    ensures { result ≡ confirmed_by e m }
{
    let message = m.message;
    let quiet = confirms(message, m.flags);
    if quiet {
        return e.confirmed();
    }
    e
}

// The endpoint with the limit announced after an OPEN.
fn limited_by(e: Endpoint, content: Content) -> Endpoint
    ensures { result ≡ limited_by e content }
{
    match content {
        Content::Nothing => e,
        Content::Opening(opening) => {
            let announced = opening.announced;
            e.limited(terms::announced_limit(announced))
        }
        Content::Body(_) => e,
    }
}

#[tactic(auto, unfolding(crate::specs::Hearing::reply_to))]
fn reply_to(m: Message) -> Option<Control>
    ensures { result ≡ reply_to m }
{
    if asks(m.message, m.flags) {
        return Some(Control {
            message: m.message,
            flags: 2,
            type_data: m.type_data,
        });
    }
    None
}

// A message that is heard.
#[tactic(auto, unfolding(crate::specs::Hearing::accepted))]
fn accept(e: Endpoint, m: Message, row: Result<Step, table::Refusal>, content: Content) -> Received
    ensures { received_as result ≡ accepted e m row content }
{
    let message = m.message;
    Received {
        answer: Answer::Heard(Heard {
            message,
            flags: m.flags,
            type_data: m.type_data,
            frames: m.frames,
            content,
        }),
        next: limited_by(confirmed_by(table::moved(e, row), m), content),
        reply: reply_to(m),
    }
}

// A message that was read, the endpoint that it reached, and what is offered there.
#[derive(Clone, Copy)]
struct Arrival<'a> {
    e: Endpoint,
    s: &'a [u8],
    offer: Offer<'a>,
    m: Message,
    // A body stands within the message.
    ghost inside: { (body_place m.body).at + (body_place m.body).length ≤ length s.now },
}

impl<'a> Arrival<'a> {
    // What the OPEN frame says to this endpoint.
    #[tactic(auto, unfolding(crate::specs::Hearing::open_at))]
    fn opening(&self) -> Result<Content, open::Refusal>
        ensures { result ≡ open_at self.now.e self.now.s.now (offer_in self.now.offer) (body_place self.now.m.body) }
    {
        let place = message::body_place(self.m.body);
        let end = place.at + place.length;
        let opening = open::hear(self.s, place.at, end, self.e.flow, self.offer)?;
        Ok(Content::Opening(opening))
    }

    // What the message carries, or which of 18 to 22 refuses it.
    #[tactic(auto, unfolding(crate::specs::Hearing::carried_by))]
    fn carried(&self) -> Result<Content, open::Refusal>
        ensures { result ≡ carried_by self.now.e self.now.s.now (offer_in self.now.offer) self.now.m }
    {
        let body = body_carried(self.m.body);
        match self.m.message {
            MessageType::Open => self.opening(),
            MessageType::Ready | MessageType::Noop | MessageType::Data | MessageType::Close => Ok(
                body,
            ),
        }
    }

    // 18 to 22 by what the message carries, 23, 24, and else it is heard; `row` is what the table says of it.
    #[tactic(auto, unfolding(crate::specs::Hearing::hear_content))]
    fn hear_content(&self, row: Result<Step, table::Refusal>) -> Received
        requires { row ≡ hear_row self.now.e self.now.m }
        ensures { received_as result ≡ hear_content self.now.e self.now.s.now (offer_in self.now.offer) self.now.m }
    {
        let e = self.e;
        let m = self.m;
        let said = u8::from(m.message);
        let carried = self.carried();
        let Ok(content) = carried else {
            return refuse(e, Refusal::from(carried.unwrap_err()), said);
        };
        if table::above_offer(row) {
            return refuse(e, Refusal::AboveOffer, said);
        }
        if is_unmatched(e, m) {
            return refuse(e, Refusal::Unmatched, said);
        }
        accept(e, m, row, content)
    }

    // 16, 17, and then by what it carries.
    #[tactic(auto, unfolding(crate::specs::Hearing::hear_message, crate::specs::Hearing::forbidden))]
    fn hear_message(&self) -> Received
        ensures { received_as result ≡ hear_message self.now.e self.now.s.now (offer_in self.now.offer) self.now.m }
    {
        let e = self.e;
        let said = u8::from(self.m.message);
        let row = hear_row(e, self.m);
        if too_large(e, self.m) {
            return refuse(e, Refusal::TooLarge, said);
        }
        if table::not_allowed(row) {
            return refuse(e, Refusal::NotAllowed, said);
        }
        self.hear_content(row)
    }
}

// What any endpoint with this offer makes of a message: 3, 10 to 24, or it is heard, with no byte of a body read and
// nothing written.
#[tactic(auto, using(message::proofs::Inside::read_within), unfolding(crate::specs::Hearing::hear_of))]
pub fn hear(e: Endpoint, s: &[u8], offer: Offer) -> Received
    ensures { received_as result ≡ hear_of e s.now (offer_in offer.entry) }
{
    if e.phase == 5 {
        return stay(e, Refusal::Closed);
    }
    let reading = message::read(s);
    let Ok(m) = reading else {
        let why = reading.unwrap_err().why;
        let said = message::said_in(reading);
        return refuse(e, Refusal::Message(why), said);
    };
    Arrival { e, s, offer, m }.hear_message()
}

// Writes a reply at the start of the output.
#[tactic(auto, using(bytes_be::proofs::Parts::put_nothing, bundle::proofs::Outputs::left_put, bundle::proofs::Outputs::one_made, control::proofs::Round::length_control), unfolding(crate::specs::Receiving::replied))]
pub fn write_reply(out: &mut [u8], reply: Option<Control>)
    ensures { out.new ≡ replied reply out.old }
{
    if let Some(frame) = reply {
        bundle::write_one(
            out,
            control::bytes_of(frame.message, frame.flags, frame.type_data),
        );
    }
}

// Receives a message: 1, 2, and then what `hear` makes of it, with the reply at the start of the output.
#[tactic(auto, using(bytes_be::proofs::Parts::put_nothing), unfolding(crate::specs::Receiving::received_of, crate::specs::Receiving::replied, crate::specs::Refusing::unchanged))]
pub fn receive(e: Endpoint, s: &[u8], offer: Offer, out: &mut [u8]) -> Received
    ensures { ReceiveAnswer e s.now (offer_in offer.entry) out.old (received_as result) out.new }
{
    if !e.good() {
        return stay(e, Refusal::BadState);
    }
    if out.len() < 14 {
        return stay(e, Refusal::ShortOutput);
    }
    let received = hear(e, s, offer);
    write_reply(out, received.reply);
    received
}
