//! Writing records into a lent slice, one after the other from its front.

ghost use Rattle.std.specs.Prelude.{◌≡◌, ◌+◌, ◌*◌, ◌≤◌, length, is_ok, ltb, drop, OnOk};
ghost use Rattle.record.specs.Layout.{Within, decode_record, encode_record};
ghost use Rattle.record.specs.Write.{room_for, write_at, put, cleared};

use crate::{RECORD_BYTES, Record, Span, decode_at, encode};

// The number of records that may be written to dst: `most`, or as many as it holds whole.
fn room(dst: &[u8], most: u16) -> u16
    ensures { result ≡ room_for most dst.now }
{
    usize::from(most).min(dst.len() / RECORD_BYTES) as u16
}

/// There is no room for one more record.
#[derive(Clone, Copy, Debug, PartialEq, Eq, Hash)]
pub struct Full;

// Copies bytes to as many places. `copy_from_slice` was tried: it first asks whether the two overlap, which costs 20
// instructions a record, 70 in place of 50.
fn copy(part: &mut [u8], bytes: &[u8; RECORD_BYTES])
    requires { length part.old ≡ 24 }
    ensures { part.new ≡ bytes.now }
{
    for (i, place) in part.iter_mut().enumerate() {
        *place = bytes[i];
    }
}

// Writes r as record n of dst, which has room for it. Each field is read, and so known to be within its width.
fn write_record(dst: &mut [u8], n: u16, r: &Record)
    requires { 24 * n + 24 ≤ length dst.old }
    ensures bytes { dst.new ≡ write_at dst.old (24 * n) (encode_record r.now) }
    ensures within { Within r.now }
{
    let Record {
        kind: _kind,
        sub: _sub,
        a: _a,
        b: _b,
        c: _c,
        v: _v,
        span: Span {
            offset: _offset,
            len: _len,
        },
    } = *r;
    let at = RECORD_BYTES * usize::from(n);
    copy(&mut dst[at..at + RECORD_BYTES], &encode(*r));
}

/// Writes r as record n of dst, if n is below both `most` and the number of whole records that dst holds. Else nothing
/// changes.
#[tactic(auto, unfolding(crate::specs::Write::put), using(std::proofs::lemmas::Bool::Decides::nat_tests))]
pub fn put_record(dst: &mut [u8], most: u16, n: u16, r: &Record) -> Result<(), Full>
    ensures value { is_ok result ≡ ltb n (room_for most dst.old) }
    ensures dst_after { dst.new ≡ put most dst.old n r.now }
    ensures within { OnOk result (Within r.now) }
{
    // `room` is not asked: it divides.
    if n >= most {
        return Err(Full);
    }
    if dst.len() < RECORD_BYTES * usize::from(n) + RECORD_BYTES {
        return Err(Full);
    }
    write_record(dst, n, r);
    Ok(())
}

/// Zeros in the place of all records that may be written to dst, up to `most`. What is past them stays.
#[tactic(auto, unfolding(crate::specs::Write::cleared))]
pub fn clear(dst: &mut [u8], most: u16)
    ensures { dst.new ≡ cleared (room_for most dst.old) dst.old }
{
    let end = RECORD_BYTES * usize::from(room(dst, most));
    dst[..end].fill(0);
}

/// Record n of those that were written to s. A byte past the end of the slice counts as 0.
pub fn written_at(s: &[u8], n: u16) -> Record
    ensures { result ≡ decode_record (drop (24 * n) s.now) }
{
    decode_at(s, RECORD_BYTES * usize::from(n))
}
