//! Records written one after the other into a lent slice.

ghost use Rattle.std.specs.Prelude.{◌≡◌, ℕ, ◌<◌, ◌≤◌, List, [], ◌∷◌, ◌++◌, length};
ghost use Rattle.record.specs.declared.Record.{Record};
ghost use Rattle.record.specs.declared.cursor.Cursor.{Cursor};
ghost use Rattle.record.specs.Write.{room_for, with_records};
ghost use Rattle.record.specs.Written.{shown, pushed, number_given, read_at, blank, written, all_of};

use crate::Record;
use crate::write::{Full, put_record, written_at};

/// How many records stand at the front of a lent slice, and how many may.
#[derive(Clone, Copy, Debug, PartialEq, Eq, Hash)]
pub struct Cursor {
    pub count: u16,
    pub most: u16,
}

impl Cursor {
    /// Record `n`, if it is written. A byte past the end of the slice counts as 0.
    #[tactic(auto, using(crate::proofs::Pushes::reads))]
    pub fn get(&self, bytes: &[u8], n: u16) -> Option<Record>
        ensures { result ≡ read_at (shown bytes.now self.now) n }
    {
        if n < self.count {
            Some(written_at(bytes, n))
        } else {
            None
        }
    }

    /// Writes the record behind the others, where there is room; its number. Where there is none, nothing changes.
    #[tactic(auto, unfolding(crate::specs::Write::put, crate::specs::Written::pushed, crate::specs::Written::number_given), using(crate::proofs::Pushes::writes))]
    pub fn push(&mut self, bytes: &mut [u8], item: &Record) -> Result<u16, Full>
        ensures number { result ≡ number_given (shown bytes.old self.old) }
        ensures state { shown bytes.new self.new ≡ pushed (shown bytes.old self.old) item.now }
    {
        let n = self.count;
        put_record(bytes, self.most, n, item)?;
        self.count = n + 1;
        Ok(n)
    }
}

/// What a slice shows before and after: nothing written, records written one after the other as long as there is room,
/// and the whole slice, which is their bytes and then the bytes as lent.
pub fn laws()
    ensures blank { (bytes : List ℕ) (most : ℕ) → shown bytes (record { count = 0; most = most }) ≡ blank bytes most }
    ensures none { (bytes : List ℕ) (most : ℕ) → blank bytes most ≡ written [] bytes most }
    ensures one_more { (rs : List Record) (lent : List ℕ) (most : ℕ) (r : Record) →
        length rs < room_for most lent → pushed (written rs lent most) r ≡ written (rs ++ r ∷ []) lent most }
    ensures full { (rs : List Record) (lent : List ℕ) (most : ℕ) (r : Record) →
        room_for most lent ≤ length rs → pushed (written rs lent most) r ≡ written rs lent most }
    ensures all { (bytes : List ℕ) (c : Cursor) → all_of (shown bytes c) ≡ bytes }
    ensures written { (rs : List Record) (lent : List ℕ) (most : ℕ) → all_of (written rs lent most) ≡ with_records rs lent }
{}
