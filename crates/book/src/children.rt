//! The trees at the records: cause 5, their children, and cause 8, how deep they are.

ghost use Rattle.std.specs.Prelude.{◌≡◌, List, [], ◌≤◌};
ghost use Rattle.std.proofs.Math.Option.{some};
ghost use Rattle.record.specs.declared.Record.{Record};
ghost use Rattle.book.specs.Shape.{Child, child_in, children_by};
ghost use Rattle.book.specs.Rows.{field_from, row_from};
ghost use Rattle.book.specs.Tables.{Trees, Taken, grown};

use crate::RECORDS;
use crate::shape::{Field, Group, Shaped};
use record::refusal::{Cause, Refusal};

// A tree has at most so many levels.
const LEVELS: u8 = 64;

/// The tree at a record: the record's group, and how many levels the tree has.
#[derive(Clone, Copy)]
pub struct Tree {
    pub group: Group,
    pub levels: u8,
}

// The levels of the tree at the child that a field of record n with the value x names, 0 where it names none. The tree
// is taken away, so that no other field finds it. `Option::take` was tried, and took up to three instructions more.
fn take_child(
    n: u16,
    field: Field,
    x: u16,
    trees: &mut [Option<Tree>; RECORDS],
) -> Result<u8, Refusal>
    requires { n ≤ 1344 }
    ensures { (rs : List Record) (cs : List Child) → Trees rs n cs trees.old →
        Taken rs n cs (child_in (field_from field) x) result trees.new }
{
    let Some(group) = field.child(x) else {
        return Ok(0);
    };
    if x < n {
        let tree = trees[usize::from(x)];
        trees[usize::from(x)] = None;
        if let Some(tree) = tree {
            if tree.group == group {
                return Ok(tree.levels);
            }
        }
    }
    Err(Refusal {
        cause: Cause::Child,
        place: n,
    })
}

/// The levels of the deepest tree at a child of record n, which is shaped so, 0 where it has none. The trees are taken
/// away.
pub(crate) fn take_children(
    n: u16,
    shaped: &Shaped<'_>,
    trees: &mut [Option<Tree>; RECORDS],
) -> Result<u8, Refusal>
    requires { n ≤ 1344 }
    ensures { (rs : List Record) → Trees rs n [] trees.old →
        Taken rs n [] (children_by shaped.now.record.now (some (row_from shaped.now.row.now))) result trees.new }
{
    let Shaped { record, row } = *shaped;
    let a = take_child(n, row.a, record.a, trees)?;
    let b = take_child(n, row.b, record.b, trees)?;
    let c = take_child(n, row.c, record.c, trees)?;
    Ok(a.max(b).max(c))
}

/// The tree at record n, which is of a group, over children of so many levels: declarations and items add none to the
/// trees at them.
pub(crate) fn grow(n: u16, group: Group, levels: u8) -> Result<Tree, Refusal>
    ensures { result ≡ grown n group levels }
{
    let most = if group.is_outside() {
        LEVELS
    } else {
        LEVELS - 1
    };
    if levels <= most {
        Ok(Tree {
            group,
            levels: levels + 1,
        })
    } else {
        Err(Refusal {
            cause: Cause::Depth,
            place: n,
        })
    }
}
