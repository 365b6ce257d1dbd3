// A message as a bundle carries it: its control frame and its data frame, if it has one, or the first of 10 to 15 that refuses it.
#![tactic(auto)]

ghost use Rattle.std.specs.Prelude.{◌≡◌};
ghost use Rattle.message.specs.Reading.{strange_flags, bad_flags, bad_frames, carries as Reading·carries, body_place, refused as Reading·refused, tested as Reading·tested, reading_of, reason_number, number_by, said_in};
ghost use Rattle.message.specs.Held.{body_behind};

use bundle::BadBundle;
use bytes_be::Place;
use control::MessageType;
use numbered::Numbered;

#[derive(Clone, Copy)]
pub struct Message {
    pub message: MessageType,
    pub flags: u8,
    pub type_data: u16,
    // How many data frames there are.
    pub frames: usize,
    // The sum of all frame lengths.
    pub size: u64,
    // Where the data frame stands in the message, if there is one that is looked at.
    pub body: Option<Place>,
}

// Why a message is refused while it is read.
#[derive(Clone, Copy, Debug, PartialEq, Eq)]
pub enum Reason {
    BadBundle,
    Control(control::Refusal),
    BadFlags,
    BadFrames,
}

impl Numbered for Reason {
    ghost number = { reason_number };

    fn number(&self) -> u8 {
        match self {
            Reason::BadBundle => BadBundle.number(),
            Reason::Control(why) => why.number(),
            Reason::BadFlags => 14,
            Reason::BadFrames => 15,
        }
    }
}

// A refusal: why, which may be a number alone, and the type that the control byte says, or 0 where no control byte was read.
#[derive(Clone, Copy, Debug, PartialEq, Eq)]
pub struct Refusal<Why = Reason> {
    pub why: Why,
    pub said: u8,
}

impl<Why: Numbered> Numbered for Refusal<Why> {
    ghost number = { number_by Why.number };

    fn number(&self) -> u8 {
        self.why.number()
    }
}

// A flag other than the two that there are, or both of them.
#[tactic(auto, unfolding(crate::specs::Reading::strange_flags))]
fn strange_flags(flags: u8) -> bool
    ensures { result ≡ strange_flags flags }
{
    (4 <= flags) | (flags == 3)
}

// The type of a message and its flags, which say together what it may carry.
#[derive(Clone, Copy)]
struct Kind {
    message: MessageType,
    flags: u8,
}

impl Kind {
    fn bad_flags(self) -> bool
        ensures { result ≡ bad_flags self.message self.flags }
    {
        let strange = strange_flags(self.flags);
        match self.message {
            MessageType::Open | MessageType::Ready => strange | (self.flags == 2),
            MessageType::Noop | MessageType::Data => strange,
            MessageType::Close => false,
        }
    }

    // Whether a data frame is looked at.
    fn carries(self) -> bool
        ensures { result ≡ Reading·carries self.message self.flags }
    {
        match self.message {
            MessageType::Open => true,
            MessageType::Data => self.flags != 2,
            MessageType::Ready | MessageType::Noop | MessageType::Close => false,
        }
    }

    fn bad_frames(self, frames: usize) -> bool
        ensures { result ≡ bad_frames self.message self.flags frames }
    {
        match self.message {
            MessageType::Open => frames != 1,
            MessageType::Ready | MessageType::Noop => frames != 0,
            MessageType::Data if self.flags == 2 => frames != 0,
            MessageType::Data => 2 <= frames,
            MessageType::Close => false,
        }
    }

    // The body of a message with so many data frames, the first of which, if there is one, stands at this place.
    fn body(self, frames: usize, place: Place) -> Option<Place>
        ensures { result ≡ body_behind self.message self.flags frames place }
    {
        let some = self.carries() & (frames != 0);
        some.then_some(place)
    }
}

// Where a body stands; the empty place at 0 where there is none.
pub fn body_place(body: Option<Place>) -> Place
    ensures { result ≡ body_place body }
{
    body.unwrap_or(Place { at: 0, length: 0 })
}

fn refused(why: Reason, said: u8) -> Result<Message, Refusal>
    ensures { result ≡ Reading·refused why said }
{
    Err(Refusal { why, said })
}

// A message whose type is known, or the first of 14 and 15 that refuses it.
fn tested(said: u8, whole: Message) -> Result<Message, Refusal>
    ensures { result ≡ Reading·tested said whole }
{
    let kind = Kind {
        message: whole.message,
        flags: whole.flags,
    };
    if kind.bad_flags() {
        return refused(Reason::BadFlags, said);
    }
    if kind.bad_frames(whole.frames) {
        return refused(Reason::BadFrames, said);
    }
    Ok(whole)
}

// Reads a message without looking at a byte of its data frames.
#[tactic(auto, using(bundle::proofs::Sums::contents_some, bundle::proofs::Sums::control_inside, bundle::proofs::Sums::control_within), unfolding(crate::specs::Reading::reading_of))]
pub fn read(s: &[u8]) -> Result<Message, Refusal>
    ensures { result ≡ reading_of s.now }
{
    let Ok(contents) = bundle::contents_of(s) else {
        return refused(Reason::BadBundle, 0);
    };
    let at = contents.control.at;
    let end = at + contents.control.length;
    let Ok(signed) = control::signed_of(&s[at..end]) else {
        return refused(Reason::Control(control::Refusal::BadSignature), 0);
    };
    let byte = signed.control_byte;
    let Ok(said) = control::version_of(byte) else {
        return refused(Reason::Control(control::Refusal::OtherVersion), byte / 8);
    };
    let Ok(message) = MessageType::try_from(said) else {
        return refused(Reason::Control(control::Refusal::UnknownType), said);
    };
    let kind = Kind {
        message,
        flags: signed.flags,
    };
    // Where there is one data frame, it is all that stands behind the control frame.
    let rest = Place {
        at: end,
        length: contents.size as usize - contents.control.length,
    };
    let frames = contents.count - 1;
    let whole = Message {
        message,
        flags: signed.flags,
        type_data: signed.type_data,
        frames,
        size: contents.size,
        body: kind.body(frames, rest),
    };
    tested(said, whole)
}

// The type that the control byte says, be the message read or refused; 0 where no control byte was read.
pub fn said_in<Why: Copy>(reading: Result<Message, Refusal<Why>>) -> u8
    ensures { result ≡ said_in reading }
{
    match reading {
        Ok(m) => u8::from(m.message),
        Err(refusal) => refusal.said,
    }
}
