//! The records of a book, one after the other: causes 4 to 8.

ghost use Rattle.std.specs.Prelude.{◌≡◌, ℕ, List, ◌<◌};
ghost use mathlib.Core.List.{flat_map};
ghost use Rattle.book.specs.Lists.{find, up_to};
ghost use Rattle.book.specs.Refusal.{at_record, holds};
ghost use Rattle.book.specs.Answer.{outcome};
ghost use Rattle.book.specs.Tables.{Ready, Looked, Counted};

use crate::children::Tree;
use crate::follow::Standing;
use crate::shape::Group;
use crate::{NAMES, RECORDS, children, names, shape};
use record::Record;
use record::refusal::Refusal;

/// What is known of the records before the one at hand: their trees, none where a record is a child already; the names
/// that they declare; and what the follow rule asks for.
#[derive(Drop)]
pub struct Scan {
    pub trees: [Option<Tree>; RECORDS],
    pub names: [u8; NAMES],
    pub standing: Standing,
}

impl Scan {
    ghost use Rattle.book.specs.Tables.{Ready, Looked};

    // The first fault of record n, which is r. If there is none, the next record is at hand.
    fn check(&mut self, n: u16, r: &Record) -> Result<(), Refusal>
        requires { n < 1344 }
        ensures { (book : List ℕ) → Ready book n r.now self.old → Looked book n result self.new }
    {
        // A primitive type, as most types are: it names no child and no name, and stands anywhere.
        if shape::is_primitive(r) {
            self.trees[usize::from(n)] = Some(Tree {
                group: Group::Type,
                levels: 1,
            });
            return Ok(());
        }
        let shaped = shape::shape_of(n, r)?;
        let levels = children::take_children(n, &shaped, &mut self.trees)?;
        self.standing.check(n, &shaped)?;
        names::declare(n, &shaped, &mut self.names)?;
        let tree = children::grow(n, shaped.row.group, levels)?;
        self.trees[usize::from(n)] = Some(tree);
        self.standing = self.standing.next(&shaped);
        Ok(())
    }
}

/// Causes 4 to 8 in a book of so many records.
pub(crate) fn check_records(book: &[u8], count: u16) -> Result<(), Refusal>
    requires { Counted book.now count }
    ensures { result ≡ outcome (find (holds book.now) (flat_map at_record (up_to count))) }
{
    let mut scan = Scan {
        trees: [None; RECORDS],
        names: [0; NAMES],
        standing: Standing::start(),
    };
    for n in 0..count {
        scan.check(n, &record::record_at(book, n))?;
    }
    Ok(())
}
