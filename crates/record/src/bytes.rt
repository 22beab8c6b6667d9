//! Numbers at the front of a slice, least significant byte first. A byte past the end counts as 0.

ghost use Rattle.std.specs.Prelude.{◌≡◌, ◌==◌, drop, slice_index};
ghost use Rattle.std.specs.List.{list_all};
ghost use Rattle.record.specs.Bytes.{little_endian};

/// What is left of s from a place on: nothing where the place is past the end.
pub fn from(s: &[u8], at: usize) -> &[u8]
    ensures { result.now ≡ drop at s.now }
{
    s.get(at..).unwrap_or(&[])
}

/// Byte i of s.
pub fn byte(s: &[u8], i: usize) -> u8
    ensures { result ≡ slice_index s.now i }
{
    s.get(i).copied().unwrap_or(0)
}

/// Whether all bytes are 0.
pub fn are_zero(bytes: &[u8]) -> bool
    ensures { result ≡ list_all (λ x. x == 0) bytes.now }
{
    bytes.iter().all(|byte| *byte == 0)
}

/// The number in the first byte. It is for callers outside of these crates.
#[tactic(auto, using(crate::proofs::Numbers::one_there))]
pub fn one(s: &[u8]) -> u8
    ensures { result ≡ little_endian 1 s.now }
{
    byte(s, 0)
}

/// The number in the first two bytes.
#[tactic(auto, using(crate::proofs::Numbers::two_there))]
pub fn two(s: &[u8]) -> u16
    ensures { result ≡ little_endian 2 s.now }
{
    u16::from_le_bytes([byte(s, 0), byte(s, 1)])
}

/// The number in the first four bytes.
#[tactic(auto, using(crate::proofs::Numbers::four_there))]
pub fn four(s: &[u8]) -> u32
    ensures { result ≡ little_endian 4 s.now }
{
    u32::from_le_bytes([byte(s, 0), byte(s, 1), byte(s, 2), byte(s, 3)])
}
