//! What a lowering tells: its messages and their classes.

ghost use Rattle.std.specs.Prelude.{◌≡◌};
ghost use Rattle.types.specs.Code as code;
ghost use Rattle.types.specs.Messages.{message_number, message_class, class_number, class_of};

use crate::lowering::message;
use record::{Record, Span};

/// The class of a diagnostic, by its name in the source.
#[derive(Clone, Copy, Debug, Default, PartialEq, Eq, Hash)]
pub enum ErrorClass {
    #[default]
    UnresolvedType = 0,
    AliasTargetNotFound = 1,
    ConstRefNotFound = 2,
}

impl ErrorClass {
    /// Its number, which a diagnostic record has in 64 bits.
    pub fn number(self) -> u64
        ensures { result ≡ class_number self }
    {
        self as u64
    }
}

impl From<u64> for ErrorClass {
    ghost from_gives = { λ v class. class ≡ class_of v };

    /// The class of a diagnostic by its number, which is at most 2.
    fn from(v: u64) -> Self {
        match v {
            0 => ErrorClass::UnresolvedType,
            1 => ErrorClass::AliasTargetNotFound,
            _ => ErrorClass::ConstRefNotFound,
        }
    }
}

/// What is told of a name or of a constant.
#[derive(Clone, Copy, Debug, PartialEq, Eq, Hash)]
pub enum Message {
    /// A name that is ambiguous between wildcard imports.
    Ambiguous = 0,
    /// A name that is not known.
    Unresolved = 1,
    /// A qualified name whose namespace is not known.
    UnresolvedNamespace = 2,
    /// The head of a generic that is no generic alias.
    NotGeneric = 3,
    /// The head of a generic that is not known.
    UnresolvedHead = 4,
    /// A constant without a value.
    NoValue = 5,
}

impl Message {
    /// Its number, which a diagnostic record has as its sub.
    pub fn code(self) -> u8
        ensures { result ≡ message_number self }
    {
        self as u8
    }

    /// Its class.
    pub fn class(self) -> ErrorClass
        ensures { result ≡ message_class self }
    {
        match self {
            Message::NotGeneric => ErrorClass::AliasTargetNotFound,
            Message::NoValue => ErrorClass::ConstRefNotFound,
            Message::Ambiguous
            | Message::Unresolved
            | Message::UnresolvedNamespace
            | Message::UnresolvedHead => ErrorClass::UnresolvedType,
        }
    }

    /// The diagnostic that tells it of two names.
    pub fn record(self, a: u16, b: u16, span: Span) -> Record
        ensures { result ≡ code.message (message_number self) a b (class_number (message_class self)) span }
    {
        message(self.code(), a, b, self.class().number(), span)
    }
}
