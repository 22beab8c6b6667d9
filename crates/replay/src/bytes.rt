//! Bytes of a list of answers: numbers and names.

ghost use Rattle.std.specs.Prelude.{◌≡◌, ◌≤◌, length};
ghost use Rattle.replay.specs.Bytes.{zeros, printed, is_name};
ghost use Rattle.replay.specs.Layout.{number_at};

use record::bytes::{four, from};

/// The number in the four bytes from a place on, least significant byte first.
pub(crate) fn number(s: &[u8], at: usize) -> u32
    ensures { result ≡ number_at s.now at }
{
    four(from(s, at))
}

/// Whether every byte is zero.
pub(crate) fn all_zero(s: &[u8]) -> bool
    ensures { result ≡ zeros s.now }
{
    record::bytes::are_zero(s)
}

/// The number of printable characters at the front of s.
pub(crate) fn printed_length(s: &[u8]) -> usize
    ensures value { result ≡ printed s.now }
    ensures bound { result ≤ length s.now }
{
    s.iter().take_while(|byte| byte.is_ascii_graphic()).count()
}

/// Whether s is a name: printable characters, at least one, and then zero bytes.
#[tactic(auto, unfolding(crate::specs::Bytes::is_name))]
pub(crate) fn is_name(s: &[u8]) -> bool
    ensures { result ≡ is_name s.now }
{
    let n = printed_length(s);
    (0 < n) && all_zero(&s[n..])
}
