//! The number of a type, apart from record numbers.

ghost use Rattle.std.specs.Prelude.{◌≡◌};
ghost use Rattle.record.specs.Named.{named_record};

use crate::Record;
use crate::kind::Kind;

/// A type by its number: declared types first, then generic aliases, then stubs. Never used as a record number.
#[derive(Clone, Copy, Debug, PartialEq, Eq, Hash)]
pub struct TypeId(pub u32);

/// The result record of a named type, the one place where a type number goes into a record.
pub fn named(id: TypeId) -> Record
    ensures { result ≡ named_record id.0 }
{
    Record::bare(Kind::Named, 0, 0, 0, u64::from(id.0))
}
