// The numbers of document 01 by which what is refused is told, as each error of this library has one.
#![tactic(auto)]

ghost use Rattle.std.specs.Prelude.{◌≡◌, ℕ};
ghost use Rattle.std.specs.Int.NonZero.{non_zero_u8_get};
ghost use Rattle.numbered.specs.Numbered.{number_of};

use std::num::NonZeroU8;

// An error that has a number of 01.
pub trait Numbered {
    ghost number: { Self → ℕ };

    fn number(&self) -> u8
        ensures { result ≡ number self.now };
}

// A number, where it is all that an error says.
impl Numbered for u8 {
    ghost number = { λ number. number };

    fn number(&self) -> u8 {
        *self
    }
}

// One that is not 0, as the number of what is refused.
impl Numbered for NonZeroU8 {
    ghost number = { non_zero_u8_get };

    fn number(&self) -> u8 {
        self.get()
    }
}

// The number of an answer: 0, or that of its error.
pub fn number_of<T, E: Numbered>(answer: &Result<T, E>) -> u8
    ensures { result ≡ number_of E.number answer.now }
{
    match answer {
        Ok(_) => 0,
        Err(why) => why.number(),
    }
}
