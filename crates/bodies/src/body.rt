//! Messages, unions and newtypes, in book order.

ghost use Rattle.record.specs.Kind.{code_of};
ghost use Rattle.types.specs.Code.{Steps};
ghost use Rattle.bodies.specs.Code as code;

use crate::encoding::annotations_of;
use crate::item::{carried, lower_field, lower_tombstone, lower_variant, write};
use record::kind::Kind;
use record::refusal::Refusal;
use types::lowering::Lowering;

/// Lowers the items of a declaration: those behind it, up to the next declaration. By `enumerate`, since each item is
/// lowered with what stands behind it; `split_first` in a loop would need a measure, and be no plainer.
#[tactic(auto, using(crate::proofs::Behind::along))]
fn lower_items<const N: usize, const R: usize>(
    lowering: &mut Lowering<'_, '_, '_, '_, N, R>,
    behind: &[u16],
    delta: bool,
) -> Result<(), Refusal>
    ensures { Steps N R lowering.old lowering.new result (code.lower_items delta behind.now) }
{
    for (at, m) in behind.iter().enumerate() {
        match lowering.book.kind(*m) {
            Ok(Kind::Field) => lower_field(lowering, *m, &behind[at + 1..], delta)?,
            Ok(Kind::Tombstone) => lower_tombstone(lowering, *m, &behind[at + 1..])?,
            Ok(Kind::Variant) => lower_variant(lowering, *m)?,
            Ok(kind) if kind.is_declaration() => return Ok(()),
            _ => {}
        }
    }
    Ok(())
}

/// Begins the message or union at record `n`: its own record, of this kind.
fn begin_body<const N: usize, const R: usize>(
    lowering: &mut Lowering<'_, '_, '_, '_, N, R>,
    kind: Kind,
    n: u16,
) -> Result<u16, Refusal>
    ensures { Steps N R lowering.old lowering.new result (code.begin_body (code_of kind) n) }
{
    lowering.place = n;
    let r = lowering.book.record(n);
    lowering.emit(&carried(kind, r.a, 0, 0, &r))
}

/// Lowers the message at record `n`: its own record, then its items. What stands behind a declaration or an item goes
/// beside its number, here and below: a struct of the two would be taken apart in each function. The annotations of a
/// message say once for all its fields whether delta is around them, and that is handed down: as a field of the
/// lowering it would have to be set and reset around each declaration.
#[tactic(auto, unfolding(crate::specs::Code::lower_body))]
fn lower_message<const N: usize, const R: usize>(
    lowering: &mut Lowering<'_, '_, '_, '_, N, R>,
    n: u16,
    behind: &[u16],
) -> Result<(), Refusal>
    ensures { Steps N R lowering.old lowering.new result (code.lower_message n behind.now) }
{
    let delta = annotations_of(lowering.book, behind).delta;
    begin_body(lowering, Kind::LoweredMessage, n)?;
    lower_items(lowering, behind, delta)
}

/// Lowers the union at record `n`: its own record, then its items. No delta applies to its fields.
#[tactic(auto, unfolding(crate::specs::Code::lower_body))]
fn lower_union<const N: usize, const R: usize>(
    lowering: &mut Lowering<'_, '_, '_, '_, N, R>,
    n: u16,
    behind: &[u16],
) -> Result<(), Refusal>
    ensures { Steps N R lowering.old lowering.new result (code.lower_union n behind.now) }
{
    begin_body(lowering, Kind::LoweredUnion, n)?;
    lower_items(lowering, behind, false)
}

/// Lowers the newtype at record `n`: its type, then its own record.
#[tactic(auto, unfolding(crate::specs::Code::lower_newtype))]
fn lower_newtype<const N: usize, const R: usize>(
    lowering: &mut Lowering<'_, '_, '_, '_, N, R>,
    n: u16,
) -> Result<(), Refusal>
    ensures { Steps N R lowering.old lowering.new result (code.lower_newtype n) }
{
    lowering.place = n;
    let r = lowering.book.record(n);
    let root = lowering.resolve_type(r.b)?;
    write(lowering, &carried(Kind::LoweredNewtype, r.a, root, 0, &r))
}

/// Lowers the messages, unions and newtypes of a book, in its order, which stand among these declarations and items.
#[tactic(auto, using(crate::proofs::Behind::along))]
pub fn lower_bodies<const N: usize, const R: usize>(
    lowering: &mut Lowering<'_, '_, '_, '_, N, R>,
    outside: &[u16],
) -> Result<(), Refusal>
    ensures { Steps N R lowering.old lowering.new result (code.lower_bodies outside.now) }
{
    for (at, n) in outside.iter().enumerate() {
        match lowering.book.kind(*n) {
            Ok(Kind::Message) => lower_message(lowering, *n, &outside[at + 1..])?,
            Ok(Kind::Union) => lower_union(lowering, *n, &outside[at + 1..])?,
            Ok(Kind::Newtype) => lower_newtype(lowering, *n)?,
            _ => {}
        }
    }
    Ok(())
}
