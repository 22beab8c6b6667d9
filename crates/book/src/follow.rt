//! Which records stand behind which: cause 6.

ghost use Rattle.std.specs.Prelude.{◌≡◌, true, List, []};
ghost use Rattle.record.specs.Kind.{code_of};
ghost use Rattle.book.specs.Follow.{follow_of};
ghost use Rattle.book.specs.Tables.{kind_number, tombstone_of};

use crate::follow_table::FOLLOW;
use crate::shape::Shaped;
use record::Record;
use record::kind::Kind;
use record::refusal::{Cause, Refusal};

/// What the follow rule knows of the records before: the kinds of the last declaration or item and of the latest
/// declaration, and whether fields and tombstones may stand under a variant of it.
#[derive(Clone, Copy)]
pub struct Standing {
    pub before: Option<Kind>,
    pub declaration: Option<Kind>,
    pub variant: bool,
}

/// Whose a tombstone is.
#[derive(Clone, Copy)]
pub enum TombstoneOf {
    Fields,
    Union,
    Neither,
}

impl From<u8> for TombstoneOf {
    ghost from_gives = { λ sub whose. whose ≡ tombstone_of sub };

    /// Whose it is by the sub of its record: of a message or a variant, or of the union itself.
    fn from(sub: u8) -> Self {
        match sub {
            0 => TombstoneOf::Fields,
            1 => TombstoneOf::Union,
            _ => TombstoneOf::Neither,
        }
    }
}

// The row of the follow table for a kind before, of which 0 is for none.
fn row_behind(kind: Option<Kind>) -> usize
    ensures { result ≡ kind_number kind }
{
    match kind {
        Some(kind) => usize::from(kind.code()),
        None => 0,
    }
}

// Whether a record of a kind may stand behind one of another kind, as far as the two kinds tell.
fn follows(before: Option<Kind>, kind: Kind) -> bool
    ensures { result ≡ follow_of (kind_number before) (code_of kind) }
{
    let Some(row) = FOLLOW.get(row_behind(before)) else {
        return false;
    };
    let Some(may) = row.get(usize::from(kind.code())) else {
        return false;
    };
    *may
}

impl Standing {
    ghost use Rattle.record.specs.declared.Record.{Record};
    ghost use Rattle.record.specs.Kind.{code_of};
    ghost use Rattle.book.specs.Faults.{may_follow};
    ghost use Rattle.book.specs.Tables.{Placed, unless, following, has_room, takes_fields, is_union, declaration_behind, variant_behind, kind_number, standing_of};

    /// Nothing stands before the first record.
    pub(crate) fn start() -> Standing
        ensures { Placed [] (standing_of result) }
    {
        Standing {
            before: None,
            declaration: None,
            variant: false,
        }
    }

    // Whether fields go here: under a message, or under a union with an open variant.
    fn takes_fields(&self) -> bool
        ensures { result ≡ takes_fields self.now.declaration self.now.variant }
    {
        match self.declaration {
            Some(Kind::Message) => true,
            Some(Kind::Union) => self.variant,
            _ => false,
        }
    }

    // Whether the latest declaration is a union.
    fn is_union(&self) -> bool
        ensures { result ≡ is_union self.now.declaration }
    {
        matches!(self.declaration, Some(Kind::Union))
    }

    // Whether the declaration that is meant has room for a record of a kind.
    fn has_room(&self, r: &Record, kind: Kind) -> bool
        requires { r.now.kind ≡ code_of kind }
        ensures { result ≡ has_room r.now (standing_of self.now) }
    {
        match kind {
            Kind::Field => self.takes_fields(),
            Kind::Tombstone => match TombstoneOf::from(r.sub) {
                TombstoneOf::Fields => self.takes_fields(),
                TombstoneOf::Union => self.is_union(),
                TombstoneOf::Neither => true,
            },
            Kind::Variant => self.is_union(),
            _ => true,
        }
    }

    // Whether a record may stand where it stands.
    fn may_follow(&self, shaped: &Shaped<'_>) -> bool
        ensures { (bs : List Record) → Placed bs (standing_of self.now) → result ≡ may_follow shaped.now.record.now bs }
    {
        let Shaped { record, row } = *shaped;
        !row.group.is_outside() || follows(self.before, row.kind) && self.has_room(record, row.kind)
    }

    /// Cause 6 at record n, which is shaped so.
    pub(crate) fn check(&self, n: u16, shaped: &Shaped<'_>) -> Result<(), Refusal>
        ensures { (bs : List Record) → Placed bs (standing_of self.now) →
            result ≡ unless (may_follow shaped.now.record.now bs) Cause.Follow n }
    {
        if self.may_follow(shaped) {
            return Ok(());
        }
        Err(Refusal {
            cause: Cause::Follow,
            place: n,
        })
    }

    // The latest declaration behind a record of a kind.
    fn declaration_behind(&self, kind: Kind) -> Option<Kind>
        ensures { kind_number result ≡ declaration_behind kind (kind_number self.now.declaration) }
    {
        if kind.is_declaration() {
            Some(kind)
        } else {
            self.declaration
        }
    }

    // Whether a variant is open behind a record of a kind.
    fn is_open_behind(&self, r: &Record, kind: Kind) -> bool
        ensures { result ≡ variant_behind kind r.now.sub self.now.variant }
    {
        match kind {
            Kind::Variant => true,
            Kind::Tombstone => {
                !matches!(TombstoneOf::from(r.sub), TombstoneOf::Union) && self.variant
            }
            _ => !kind.is_declaration() && self.variant,
        }
    }

    /// What is known behind a record that is shaped so.
    pub(crate) fn next(&self, shaped: &Shaped<'_>) -> Standing
        ensures { (bs : List Record) → Placed bs (standing_of self.now) → may_follow shaped.now.record.now bs ≡ true →
            Placed (following shaped.now.record.now bs) (standing_of result) }
    {
        let Shaped { record, row } = *shaped;
        if !row.group.is_outside() {
            return *self;
        }
        Standing {
            before: Some(row.kind),
            declaration: self.declaration_behind(row.kind),
            variant: self.is_open_behind(record, row.kind),
        }
    }
}
