//! The 24-byte record and the 512-byte block of a signal book.

#![tactic(auto)]

ghost use Rattle.std.specs.Prelude.{◌≡◌, ℕ, ◌+◌, ◌*◌, ◌/◌, ◌%◌, ◌^◌, ◌≤◌, ◌<◌, length, drop, slice_index};
ghost use Rattle.record.specs.Layout.{decode_record, encode_record, record_at};
ghost use Rattle.record.specs.Reference.{reference, reference_number};

pub mod bytes;
pub mod check;
pub mod cursor;
pub mod kind;
pub mod refusal;
pub mod type_id;
pub mod write;

use crate::kind::{Kind, UnknownKind};
use std::array;

/// A book is made of blocks of this many bytes.
pub const BLOCK_BYTES: usize = 512;

/// A block begins with its header.
pub const HEADER_BYTES: usize = 4;

/// Behind its header a block has places for this many records.
pub const BLOCK_RECORDS: u16 = 21;

/// A record has this many bytes.
pub const RECORD_BYTES: usize = 24;

/// Where a record names another or a name, this number stands for none.
pub const NO_REFERENCE: u16 = 65535;

/// The reference that a number stands for, if it stands for one.
pub fn reference(number: u16) -> Option<u16>
    ensures { result ≡ reference number }
{
    if number == NO_REFERENCE {
        None
    } else {
        Some(number)
    }
}

/// The number that stands for a reference, or for none.
pub fn reference_number(reference: Option<u16>) -> u16
    ensures { result ≡ reference_number reference }
{
    reference.unwrap_or(NO_REFERENCE)
}

/// Where in its source text something stands: the offset of its first byte, and its length.
#[derive(Clone, Copy, Debug, Default, PartialEq, Eq, Hash)]
pub struct Span {
    pub offset: u32,
    pub len: u32,
}

impl Span {
    /// The span of what stands nowhere in the source text.
    pub const NOWHERE: Span = Span { offset: 0, len: 0 };
}

/// A record by value. Its kind is the byte as it stands, so that every 24 bytes are a record; what each field means
/// goes by the kind.
#[derive(Clone, Copy, Debug, PartialEq, Eq, Hash)]
pub struct Record {
    pub kind: u8,
    pub sub: u8,
    pub a: u16,
    pub b: u16,
    pub c: u16,
    pub v: u64,
    pub span: Span,
}

impl Record {
    ghost use Rattle.record.specs.Kind.{kind_from};
    ghost use Rattle.record.specs.Made.{bare_record, bare_record_by_code};

    /// A record of a kind, with 0 for what is not given.
    pub fn bare(kind: Kind, sub: u8, a: u16, b: u16, v: u64) -> Self
        ensures { result ≡ bare_record kind sub a b v }
    {
        Record::bare_by_code(kind.code(), sub, a, b, v)
    }

    /// The same by the first byte, which need not stand for a kind.
    pub fn bare_by_code(code: u8, sub: u8, a: u16, b: u16, v: u64) -> Self
        ensures { result ≡ bare_record_by_code code sub a b v }
    {
        Record {
            kind: code,
            sub,
            a,
            b,
            c: 0,
            v,
            span: Span::NOWHERE,
        }
    }

    /// The record with another c.
    pub fn with_c(self, c: u16) -> Self
        ensures { result ≡ record self { c = c } }
    {
        Record { c, ..self }
    }

    /// The record with another span.
    pub fn with_span(self, span: Span) -> Self
        ensures { result ≡ record self { span = span } }
    {
        Record { span, ..self }
    }

    /// What the record is, if its first byte stands for a kind.
    #[inline(always)]
    pub fn kind(&self) -> Result<Kind, UnknownKind>
        ensures { result ≡ kind_from self.now.kind }
    {
        Kind::try_from(self.kind)
    }
}

// The 24 bytes of s from a place on. A byte past the end counts as 0.
#[cold]
fn padded(s: &[u8], at: usize) -> [u8; RECORD_BYTES]
    ensures len { length result ≡ 24 }
    ensures bytes { (j : ℕ) → j < 24 → slice_index result j ≡ slice_index (drop at s.now) j }
{
    let rest = bytes::from(s, at);
    array::from_fn(|i| bytes::byte(rest, i))
}

// The record in the first 24 bytes of s, all of which are there.
#[tactic(auto, unfolding(crate::specs::Layout::decode_record), using(crate::proofs::Numbers::places))]
fn decode(s: &[u8]) -> Record
    requires { 24 ≤ length s.now }
    ensures { result ≡ decode_record s.now }
{
    Record {
        kind: s[0],
        sub: s[1],
        a: u16::from_le_bytes([s[2], s[3]]),
        b: u16::from_le_bytes([s[4], s[5]]),
        c: u16::from_le_bytes([s[6], s[7]]),
        v: u64::from_le_bytes([s[8], s[9], s[10], s[11], s[12], s[13], s[14], s[15]]),
        span: Span {
            offset: u32::from_le_bytes([s[16], s[17], s[18], s[19]]),
            len: u32::from_le_bytes([s[20], s[21], s[22], s[23]]),
        },
    }
}

// The record in the 24 bytes of s from a place on. A byte past the end counts as 0.
#[tactic(auto, using(crate::proofs::Pads::same_record))]
fn decode_at(s: &[u8], at: usize) -> Record
    requires { at < 2 ^ 32 }
    ensures { result ≡ decode_record (drop at s.now) }
{
    if at + RECORD_BYTES <= s.len() {
        decode(&s[at..])
    } else {
        decode(&padded(s, at))
    }
}

// The block of record r: r / 21, by a product, which takes a third of the instructions. 3,195,661 is 2^26 / 21, rounded
// up.
fn block_of(r: u16) -> usize
    ensures { result ≡ r / 21 }
{
    usize::from(r) * 3195661 / 0x400_0000
}

// Where record r of a book stands. Each block before its own has eight bytes besides its records.
fn place_of(r: u16) -> usize
    ensures { result ≡ 512 * (r / 21) + 4 + 24 * (r % 21) }
{
    RECORD_BYTES * usize::from(r) + 8 * block_of(r) + HEADER_BYTES
}

/// Record r of a book, at its place in its block. A byte past the end of the slice counts as 0.
#[tactic(auto, unfolding(crate::specs::Layout::record_at))]
pub fn record_at(book: &[u8], r: u16) -> Record
    ensures { result ≡ record_at book.now r }
{
    decode_at(book, place_of(r))
}

/// The kind of record r of a book, its first byte alone.
#[tactic(auto, unfolding(crate::specs::Layout::record_at, crate::specs::Layout::decode_record), using(crate::proofs::Numbers::one_at))]
pub fn kind_at(book: &[u8], r: u16) -> u8
    ensures { result ≡ (record_at book.now r).kind }
{
    book.get(place_of(r)).copied().unwrap_or(0)
}

// The 24 bytes of a record. It comes by value: so its fields are known to be within their widths.
fn encode(r: Record) -> [u8; RECORD_BYTES]
    ensures { result ≡ encode_record r }
{
    let [a0, a1] = r.a.to_le_bytes();
    let [b0, b1] = r.b.to_le_bytes();
    let [c0, c1] = r.c.to_le_bytes();
    let [v0, v1, v2, v3, v4, v5, v6, v7] = r.v.to_le_bytes();
    let [o0, o1, o2, o3] = r.span.offset.to_le_bytes();
    let [l0, l1, l2, l3] = r.span.len.to_le_bytes();
    [
        r.kind, r.sub, a0, a1, b0, b1, c0, c1, v0, v1, v2, v3, v4, v5, v6, v7, o0, o1, o2, o3, l0,
        l1, l2, l3,
    ]
}
