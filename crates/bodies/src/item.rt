//! Fields, tombstones and variants.

ghost use Rattle.std.specs.Prelude.{◌≡◌};
ghost use Rattle.record.specs.Kind.{code_of};
ghost use Rattle.types.specs.Code.{Steps, state_of};
ghost use Rattle.bodies.specs.Bodies.{carried};
ghost use Rattle.bodies.specs.Annotated.{field_encoding_of, no_annotations, key_code};
ghost use Rattle.bodies.specs.Code as code;

use crate::constraint::lower_constraint;
use crate::encoding::{FieldEncoding, annotations_of};
use book::Book;
use record::kind::Kind;
use record::refusal::Refusal;
use record::{Record, reference, reference_number};
use types::lowering::Lowering;

/// The keys of a tombstone's arguments.
#[derive(Clone, Copy)]
enum Key {
    Reason = 0,
    Since = 1,
}

impl Key {
    // The sub of an argument under the key.
    fn code(self) -> u8
        ensures { result ≡ key_code self }
    {
        self as u8
    }
}

/// A record of the book under another kind and with other references. It keeps the book's span.
pub(crate) fn carried(kind: Kind, a: u16, b: u16, c: u16, r: &Record) -> Record
    ensures { result ≡ carried (code_of kind) a b c r.now }
{
    Record {
        kind: kind.code(),
        a,
        b,
        c,
        ..*r
    }
}

/// Writes one more result, whatever its number.
#[tactic(auto, unfolding(crate::specs::Code::write))]
pub(crate) fn write<const N: usize, const R: usize>(
    lowering: &mut Lowering<'_, '_, '_, '_, N, R>,
    r: &Record,
) -> Result<(), Refusal>
    ensures { Steps N R lowering.old lowering.new result (code.write r.now) }
{
    lowering.emit(r)?;
    Ok(())
}

// The encoding of a field whose type has its root among the results, under a message's delta.
#[tactic(auto, unfolding(crate::specs::Code::field_encoding))]
fn encoding_of<const N: usize, const R: usize>(
    lowering: &Lowering<'_, '_, '_, '_, N, R>,
    behind: &[u16],
    delta: bool,
    root: u16,
) -> FieldEncoding
    ensures { field_encoding_of result
        ≡ code.field_encoding delta root (code.seen_behind lowering.now.book.now behind.now no_annotations)
        (state_of N R lowering.now) }
{
    let seen = annotations_of(lowering.book, behind);
    seen.encoding().under_delta(delta, lowering.result_at(root))
}

/// Lowers the field at record `n`: its type, its constraint, its own record, its encoding.
#[tactic(auto, unfolding(crate::specs::Code::lower_field))]
pub(crate) fn lower_field<const N: usize, const R: usize>(
    lowering: &mut Lowering<'_, '_, '_, '_, N, R>,
    n: u16,
    behind: &[u16],
    delta: bool,
) -> Result<(), Refusal>
    ensures { Steps N R lowering.old lowering.new result (code.lower_field delta n behind.now) }
{
    lowering.place = n;
    let r = lowering.book.record(n);
    let root = lowering.resolve_type(r.b)?;
    let encoding = encoding_of(lowering, behind, delta, root);
    let constraint = lower_constraint(lowering, reference(r.c))?;
    lowering.emit(&carried(
        Kind::LoweredField,
        r.a,
        root,
        reference_number(constraint),
        &r,
    ))?;
    write(lowering, &encoding.record())
}

// The first string under a key among the arguments of a tombstone, which stand behind it.
#[tactic(auto, using(crate::proofs::Behind::behind))]
fn first_string(book: &Book<'_>, behind: &[u16], key: Key) -> Option<u16>
    ensures { result ≡ code.first_string book.now (key_code key) behind.now }
{
    for m in behind {
        match book.kind(*m) {
            Ok(Kind::TombstoneArgument) => {
                let r = book.record(*m);
                if r.sub == key.code() {
                    if let Some(string) = reference(r.a) {
                        return Some(string);
                    }
                }
            }
            Ok(Kind::TypeParameter | Kind::Annotation | Kind::Argument) => {}
            _ => return None,
        }
    }
    None
}

// The type of a tombstone, which may have none. `lower_constraint` does the same with another step: one function for
// both, or `map` and `transpose`, would take the step as a closure over the lowering, with a contract of its own.
fn optional_type<const N: usize, const R: usize>(
    lowering: &mut Lowering<'_, '_, '_, '_, N, R>,
    type_expr: Option<u16>,
) -> Result<Option<u16>, Refusal>
    ensures { Steps N R lowering.old lowering.new result (code.optional_type type_expr) }
{
    match type_expr {
        Some(n) => Ok(Some(lowering.resolve_type(n)?)),
        None => Ok(None),
    }
}

/// Lowers the tombstone at record `n`.
#[tactic(auto, unfolding(crate::specs::Code::lower_tombstone))]
pub(crate) fn lower_tombstone<const N: usize, const R: usize>(
    lowering: &mut Lowering<'_, '_, '_, '_, N, R>,
    n: u16,
    behind: &[u16],
) -> Result<(), Refusal>
    ensures { Steps N R lowering.old lowering.new result (code.lower_tombstone n behind.now) }
{
    lowering.place = n;
    let r = lowering.book.record(n);
    let reason = first_string(lowering.book, behind, Key::Reason);
    let since = first_string(lowering.book, behind, Key::Since);
    let type_expr = optional_type(lowering, reference(r.c))?;
    write(
        lowering,
        &carried(
            Kind::LoweredTombstone,
            reference_number(reason),
            reference_number(since),
            reference_number(type_expr),
            &r,
        ),
    )
}

/// Lowers the variant at record `n`.
#[tactic(auto, unfolding(crate::specs::Code::lower_variant))]
pub(crate) fn lower_variant<const N: usize, const R: usize>(
    lowering: &mut Lowering<'_, '_, '_, '_, N, R>,
    n: u16,
) -> Result<(), Refusal>
    ensures { Steps N R lowering.old lowering.new result (code.lower_variant n) }
{
    lowering.place = n;
    let r = lowering.book.record(n);
    write(lowering, &carried(Kind::LoweredVariant, r.a, 0, 0, &r))
}
