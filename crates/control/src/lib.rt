// The 8-byte control frame: read in stages, one for each number that can refuse it, and written.
#![tactic(auto)]

ghost use Rattle.std.specs.Prelude.{◌≡◌};
ghost use Rattle.control.specs.Frame.{type_of, signed_of, version_of, known_type_of, control_of, refusal_number, bytes_of};

use bytes_be::Number;
use numbered::Numbered;

// The five types of message.
#[derive(Clone, Copy, Debug, PartialEq, Eq)]
pub enum MessageType {
    Open,
    Ready,
    Noop,
    Data,
    Close,
}

// Why a frame is no control frame.
#[derive(Clone, Copy, Debug, PartialEq, Eq)]
pub enum Refusal {
    // Not 8 bytes, or a wrong signature.
    BadSignature,
    // The version is not 1.
    OtherVersion,
    // Type 0 or 6 to 31.
    UnknownType,
}

impl Numbered for Refusal {
    ghost number = { refusal_number };

    fn number(&self) -> u8 {
        match self {
            Refusal::BadSignature => 11,
            Refusal::OtherVersion => 12,
            Refusal::UnknownType => 13,
        }
    }
}

// What a frame of 8 bytes with the signature says.
#[derive(Clone, Copy)]
pub struct Signed {
    pub control_byte: u8,
    pub flags: u8,
    pub type_data: u16,
}

// A control frame as it is read.
#[derive(Clone, Copy)]
pub struct Control {
    pub message: MessageType,
    pub flags: u8,
    pub type_data: u16,
}

// The number of a type.
impl From<MessageType> for u8 {
    ghost from_gives = { λ message number. number ≡ type_of message };

    fn from(message: MessageType) -> u8 {
        match message {
            MessageType::Open => 1,
            MessageType::Ready => 2,
            MessageType::Noop => 3,
            MessageType::Data => 4,
            MessageType::Close => 5,
        }
    }
}

// The type that a number stands for.
impl TryFrom<u8> for MessageType {
    type Error = Refusal;

    ghost try_from_gives = { λ number result. result ≡ known_type_of number };

    #[tactic(auto, unfolding(crate::specs::Frame::known_type_of))]
    fn try_from(number: u8) -> Result<MessageType, Refusal> {
        match number {
            1 => Ok(MessageType::Open),
            2 => Ok(MessageType::Ready),
            3 => Ok(MessageType::Noop),
            4 => Ok(MessageType::Data),
            5 => Ok(MessageType::Close),
            _ => Err(Refusal::UnknownType),
        }
    }
}

// The first stage: 8 bytes with the signature.
#[tactic(auto, unfolding(crate::specs::Frame::signed_of, bytes_be::specs::Number::from_bytes, bytes_be::specs::Number::from_bytes_behind))]
pub fn signed_of(s: &[u8]) -> Result<Signed, Refusal>
    ensures { result ≡ signed_of s.now }
{
    let signed = (s.len() == 8) & (bytes_be::read::<u32>(s, 0) == 0x4642_4450);
    if signed {
        return Ok(Signed {
            control_byte: bytes_be::read(s, 4),
            flags: bytes_be::read(s, 5),
            type_data: bytes_be::read(s, 6),
        });
    }
    Err(Refusal::BadSignature)
}

// The second stage: a control byte of version 1, and the number of its type.
#[tactic(auto, unfolding(crate::specs::Frame::version_of))]
pub fn version_of(control_byte: u8) -> Result<u8, Refusal>
    ensures { result ≡ version_of control_byte }
{
    if control_byte % 8 == 1 {
        return Ok(control_byte / 8);
    }
    Err(Refusal::OtherVersion)
}

// Reads a control frame.
#[tactic(auto, unfolding(crate::specs::Frame::control_of))]
pub fn read(s: &[u8]) -> Result<Control, Refusal>
    ensures { result ≡ control_of s.now }
{
    let Ok(signed) = signed_of(s) else {
        return Err(Refusal::BadSignature);
    };
    let Ok(number) = version_of(signed.control_byte) else {
        return Err(Refusal::OtherVersion);
    };
    let Ok(message) = MessageType::try_from(number) else {
        return Err(Refusal::UnknownType);
    };
    Ok(Control {
        message,
        flags: signed.flags,
        type_data: signed.type_data,
    })
}

// The bytes of a control frame.
#[tactic(auto, using(crate::proofs::Round::type_few), unfolding(crate::specs::Frame::bytes_of, bytes_be::specs::Number::to_bytes))]
pub fn bytes_of(message: MessageType, flags: u8, type_data: u16) -> [u8; 8]
    ensures { result ≡ bytes_of message flags type_data }
{
    let last = type_data.bytes();
    [
        0x46,
        0x42,
        0x44,
        0x50,
        8 * u8::from(message) + 1,
        flags,
        last[0],
        last[1],
    ]
}
