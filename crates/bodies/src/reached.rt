//! Reached constants: the result records and messages of each, in their order.

ghost use Rattle.std.specs.Prelude.{◌≡◌};
ghost use Rattle.arith.specs.Checked.{answer};
ghost use Rattle.types.specs.Code.{Steps};
ghost use Rattle.bodies.specs.Constant.{constant_record};
ghost use Rattle.bodies.specs.Code as code;

use crate::item::write;
use constants::reached::Settled;
use record::Record;
use record::kind::Kind;
use record::refusal::Refusal;
use types::diagnostic::Message;
use types::lowering::Lowering;

// The result record of a constant, over the root of its type.
#[tactic(auto, unfolding(crate::specs::Constant::constant_record))]
fn constant_record(r: &Record, root: u16, value: Option<i64>) -> Record
    ensures { result ≡ constant_record (answer value) r.now root }
{
    match value {
        Some(value) => {
            let bits = arith::as_u64(value);
            Record::bare(Kind::LoweredConstant, 1, r.a, root, bits).with_span(r.span)
        }
        None => Record::bare(Kind::LoweredConstant, 0, r.a, root, 0).with_span(r.span),
    }
}

// Tells of a constant without a value, with the span of its expression.
#[tactic(auto, unfolding(crate::specs::Code::tell_unless))]
fn tell_unless<const N: usize, const R: usize>(
    lowering: &mut Lowering<'_, '_, '_, '_, N, R>,
    value: Option<i64>,
    r: &Record,
) -> Result<(), Refusal>
    ensures { Steps N R lowering.old lowering.new result (code.tell_unless value r.now) }
{
    if value.is_some() {
        return Ok(());
    }
    let span = lowering.book.record(r.c).span;
    lowering.tell(&Message::NoValue.record(r.a, 0, span))?;
    Ok(())
}

// Lowers a reached constant: its type, message 5 if it has no value, its own record.
#[tactic(auto, unfolding(crate::specs::Code::lower_constant))]
fn lower_constant<const N: usize, const R: usize>(
    lowering: &mut Lowering<'_, '_, '_, '_, N, R>,
    constant: Settled,
) -> Result<(), Refusal>
    ensures { Steps N R lowering.old lowering.new result (code.lower_constant constant) }
{
    lowering.place = constant.place;
    let r = lowering.book.record(constant.place);
    let root = lowering.resolve_type(r.b)?;
    tell_unless(lowering, constant.value, &r)?;
    write(lowering, &constant_record(&r, root, constant.value))
}

/// Lowers the reached constants of a book, in their order.
#[tactic(auto, using(crate::proofs::Behind::settled))]
pub fn lower_constants<const N: usize, const R: usize>(
    lowering: &mut Lowering<'_, '_, '_, '_, N, R>,
    settled: &[Settled],
) -> Result<(), Refusal>
    ensures { Steps N R lowering.old lowering.new result (code.lower_constants settled.now) }
{
    for constant in settled {
        lower_constant(lowering, *constant)?;
    }
    Ok(())
}
