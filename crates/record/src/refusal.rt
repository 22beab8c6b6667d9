//! Why and where a book is turned back.

ghost use Rattle.std.specs.Prelude.{◌≡◌, Some};
ghost use Rattle.record.specs.Refused.{number_of, DecodesCause, refusal_line};

use std::error::Error;
use std::fmt;

/// Why a book is turned back: causes 1 to 8 are found by reading it, 9 and 10 by lowering it.
#[derive(Clone, Copy, Debug, PartialEq, Eq, Hash)]
pub enum Cause {
    BookLength = 1,
    Check = 2,
    Block = 3,
    Shape = 4,
    Child = 5,
    Follow = 6,
    Name = 7,
    Depth = 8,
    TooDeep = 9,
    Full = 10,
}

impl Cause {
    /// The number of the cause.
    pub fn number(self) -> u8
        ensures { result ≡ number_of self }
    {
        self as u8
    }
}

/// A byte that is no cause's number.
#[derive(Clone, Copy, Debug, PartialEq, Eq, Hash)]
pub struct UnknownCause(pub u8);

impl TryFrom<u8> for Cause {
    type Error = UnknownCause;

    ghost try_from_gives = { DecodesCause };

    #[tactic(auto, unfolding(crate::specs::Refused::cause_from))]
    fn try_from(number: u8) -> Result<Self, UnknownCause> {
        match number {
            1 => Ok(Cause::BookLength),
            2 => Ok(Cause::Check),
            3 => Ok(Cause::Block),
            4 => Ok(Cause::Shape),
            5 => Ok(Cause::Child),
            6 => Ok(Cause::Follow),
            7 => Ok(Cause::Name),
            8 => Ok(Cause::Depth),
            9 => Ok(Cause::TooDeep),
            10 => Ok(Cause::Full),
            _ => Err(UnknownCause(number)),
        }
    }
}

/// A book is turned back for a cause, at a place: 0, a block, or a record.
#[derive(Clone, Copy, Debug, PartialEq, Eq, Hash)]
pub struct Refusal {
    pub cause: Cause,
    pub place: u16,
}

impl fmt::Display for Refusal {
    ghost output = { λ refusal. Some (refusal_line refusal) };

    fn fmt<W: fmt::Write>(&self, f: &mut fmt::Formatter<W>) -> fmt::Result {
        write!(
            f,
            "turned back by cause {} at {}",
            self.cause.number(),
            self.place
        )
    }
}

impl Error for Refusal {}
