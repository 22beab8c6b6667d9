//! Names declared again: cause 7.

ghost use Rattle.std.specs.Prelude.{◌≡◌, List, ◌<◌, length};
ghost use Rattle.record.specs.declared.Record.{Record};
ghost use Rattle.book.specs.Faults.{record_of};
ghost use Rattle.book.specs.Tables.{set_of, bit_of, Names, Declared};

use crate::NAMES;
use crate::shape::Shaped;
use record::kind::Kind;
use record::refusal::{Cause, Refusal};

/// The sets of names. A name is declared once in each.
#[derive(Clone, Copy)]
pub enum NameSet {
    Types = 1,
    Constants = 2,
    Ambiguous = 4,
}

impl NameSet {
    // The set of names that records of a kind declare in, if they declare.
    fn of(kind: Kind) -> Option<NameSet>
        ensures { result ≡ set_of kind }
    {
        match kind {
            Kind::Message | Kind::Union | Kind::Newtype | Kind::Alias => Some(NameSet::Types),
            Kind::Constant => Some(NameSet::Constants),
            Kind::Ambiguous => Some(NameSet::Ambiguous),
            _ => None,
        }
    }

    // The bit of the set in the byte of a name.
    fn bit(self) -> u8
        ensures { result ≡ bit_of self }
    {
        self as u8
    }
}

/// Marks the name that record n declares, if it declares one. A name has a byte, with a bit for each set: with a `bool`
/// for each the names of a book would take 448 instructions more to clear.
pub(crate) fn declare(n: u16, shaped: &Shaped<'_>, names: &mut [u8; NAMES]) -> Result<(), Refusal>
    ensures { (rs : List Record) → Names rs n names.old → n < length rs → shaped.now.record.now ≡ record_of rs n →
        Declared rs n result names.new }
{
    let Some(set) = NameSet::of(shaped.row.kind) else {
        return Ok(());
    };
    let name = usize::from(shaped.record.a);
    let bit = set.bit();
    if names[name] & bit != 0 {
        return Err(Refusal {
            cause: Cause::Name,
            place: n,
        });
    }
    names[name] |= bit;
    Ok(())
}
