//! The head of a list of answers, and the header of an answer.

ghost use Rattle.std.specs.Prelude.{◌≡◌};
ghost use Rattle.replay.specs.Layout.{is_head, cause_numbered, header_of};

use crate::bytes::number;
use record::refusal::Cause;

/// What an answer says of a slice: its length in bytes as lent, the number of records written, and the number of bytes
/// at its front that changed.
#[derive(Clone, Copy, Debug)]
pub struct Part {
    pub lent: usize,
    pub count: u32,
    pub changed: usize,
}

/// What a header says, number by number: they are judged one against the other before they are a reply. The book's
/// length is in bytes; without a cause the book is accepted.
#[derive(Clone, Copy, Debug)]
pub struct Header {
    pub book: usize,
    pub cause: Option<Cause>,
    pub place: u32,
    pub constants: u32,
    pub results: Part,
    pub diagnostics: Part,
}

/// Whether s is the head of a list.
#[tactic(auto, unfolding(crate::specs::Layout::is_head))]
pub(crate) fn is_head(s: &[u8; 16]) -> bool
    ensures { result ≡ is_head s.now }
{
    s.starts_with(b"answers\n") && (number(s, 12) == 0)
}

// The cause that a number stands for: none for 0, and for what is no cause's number.
#[tactic(auto, using(crate::proofs::Causes::numbered_far))]
fn cause_numbered(n: u32) -> Option<Cause>
    ensures { result ≡ cause_numbered n }
{
    match u8::try_from(n) {
        Ok(byte) => Cause::try_from(byte).ok(),
        Err(_) => None,
    }
}

/// The header that stands in the 64 bytes of s.
#[tactic(auto, unfolding(crate::specs::Layout::header_of))]
pub(crate) fn header_of(s: &[u8; 64]) -> Header
    ensures { result ≡ header_of s.now }
{
    Header {
        book: number(s, 24) as usize,
        cause: cause_numbered(number(s, 36)),
        place: number(s, 40),
        constants: number(s, 52),
        results: Part {
            lent: number(s, 28) as usize,
            count: number(s, 44),
            changed: number(s, 56) as usize,
        },
        diagnostics: Part {
            lent: number(s, 32) as usize,
            count: number(s, 48),
            changed: number(s, 60) as usize,
        },
    }
}
