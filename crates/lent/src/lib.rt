// The endpoint record that is lent and changed in place: the two makings, the five sends and receive. A refused making leaves the record as it
// was, and a refused send record and output.
#![tactic(auto)]

ghost use Rattle.std.specs.Prelude.{◌≡◌};
ghost use Rattle.open.specs.Offer.{offer_in};
ghost use Rattle.endpoint.specs.Record.{fresh_client, fresh_server, given_number, made_or};
ghost use Rattle.sending.specs.Calls.{body_in, datum_with, OPEN, READY, DATA, NOOP, CLOSE};
ghost use Rattle.sending.specs.Sending.{sent_as};
ghost use Rattle.lent.specs.Making.{MakeOnLent};
ghost use Rattle.lent.specs.Lent.{SendOnLent, outcome_as, ReceiveOnLent, told_as, told_of};

use control::Control;
use endpoint::{BadMaking, Endpoint};
use open::Offer;
use receiving::Answer;
use sending::{Refusal, Report, Sent};

// What a receive answers, beside the record and the output.
#[derive(Clone, Copy)]
pub struct Outcome {
    pub answer: Answer,
    pub reply: Option<Control>,
}

// Keeps what was made, or the record as it was where nothing was.
fn remake(e: &mut Endpoint, made: Result<Endpoint, BadMaking>) -> Result<(), BadMaking>
    ensures answered { given_number result ≡ given_number made }
    ensures changed { e.new ≡ made_or e.old made }
{
    *e = made?;
    Ok(())
}

// Makes a client of this flow and limit.
pub fn make_client(e: &mut Endpoint, flow: u8, limit: u32) -> Result<(), BadMaking>
    ensures { MakeOnLent e.old (fresh_client flow limit) (given_number result) e.new }
{
    remake(e, endpoint::make_client(flow, limit))
}

// Makes a server of this flow.
pub fn make_server(e: &mut Endpoint, flow: u8) -> Result<(), BadMaking>
    ensures { MakeOnLent e.old (fresh_server flow) (given_number result) e.new }
{
    remake(e, endpoint::make_server(flow))
}

// Keeps the record that a send leaves, and tells how many bytes of the output are the message.
fn keep(e: &mut Endpoint, sent: Result<Sent, Refusal>) -> Result<usize, Refusal>
    ensures kept { e.new ≡ (sent_as e.old sent).next }
    ensures told { told_as result ≡ told_of (sent_as e.old sent) }
{
    let sent = sent?;
    *e = sent.next;
    Ok(sent.written)
}

// Sends OPEN for this pipe name and this format.
pub fn send_open(e: &mut Endpoint, offer: Offer, out: &mut [u8]) -> Result<usize, Refusal>
    ensures { SendOnLent e.old (OPEN (offer_in offer.entry)) out.old (told_as result) e.new out.new }
{
    let sent = sending::send_open(*e, offer, out);
    keep(e, sent)
}

// Sends READY with this count.
pub fn send_ready(e: &mut Endpoint, count: u16, out: &mut [u8]) -> Result<usize, Refusal>
    ensures { SendOnLent e.old (READY count) out.old (told_as result) e.new out.new }
{
    let sent = sending::send_ready(*e, count, out);
    keep(e, sent)
}

// Sends DATA with this body, or without one.
pub fn send_data(
    e: &mut Endpoint,
    report: Report,
    body: Option<&[u8]>,
    out: &mut [u8],
) -> Result<usize, Refusal>
    ensures { SendOnLent e.old (DATA (datum_with report (body_in body.entry))) out.old (told_as result) e.new out.new }
{
    let sent = sending::send_data(*e, report, body, out);
    keep(e, sent)
}

// Sends NOOP, with an ask for confirmation or without.
pub fn send_noop(
    e: &mut Endpoint,
    type_data: u16,
    ask: bool,
    out: &mut [u8],
) -> Result<usize, Refusal>
    ensures { SendOnLent e.old (NOOP type_data ask) out.old (told_as result) e.new out.new }
{
    let sent = sending::send_noop(*e, type_data, ask, out);
    keep(e, sent)
}

// Sends CLOSE with this code.
pub fn send_close(e: &mut Endpoint, code: u16, out: &mut [u8]) -> Result<usize, Refusal>
    ensures { SendOnLent e.old (CLOSE code) out.old (told_as result) e.new out.new }
{
    let sent = sending::send_close(*e, code, out);
    keep(e, sent)
}

// Receives a message where this is offered, with the reply at the start of the output.
pub fn receive(e: &mut Endpoint, s: &[u8], offer: Offer, out: &mut [u8]) -> Outcome
    ensures { ReceiveOnLent e.old s.now (offer_in offer.entry) out.old (outcome_as result) e.new out.new }
{
    let received = receiving::receive(*e, s, offer, out);
    *e = received.next;
    Outcome {
        answer: received.answer,
        reply: received.reply,
    }
}
