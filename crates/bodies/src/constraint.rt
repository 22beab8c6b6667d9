//! Constraints of fields, by recursion on the record numbers of their children, which are always smaller.

ghost use Rattle.std.specs.Prelude.{◌≡◌};
ghost use Rattle.types.specs.Code.{Steps};
ghost use Rattle.bodies.specs.Annotated.{connective_from, operand_from};
ghost use Rattle.bodies.specs.Code as code;

use record::Record;
use record::kind::Kind;
use record::refusal::Refusal;
use types::lowering::Lowering;

/// What a logical constraint says of its sides, by its sub. And and Or have two, and Not has one. An accepted record
/// has one of the subs 0 to 2.
#[derive(Clone, Copy)]
enum Connective {
    And,
    Or,
    Not,
}

impl From<u8> for Connective {
    ghost from_gives = { λ sub connective. connective ≡ connective_from sub };

    fn from(sub: u8) -> Self {
        match sub {
            0 => Connective::And,
            1 => Connective::Or,
            _ => Connective::Not,
        }
    }
}

/// What an operand is: the value that is constrained, or something that its record has.
#[derive(Clone, Copy)]
enum WhereOperand {
    Value,
    Other,
}

impl From<u8> for WhereOperand {
    ghost from_gives = { λ sub operand. operand ≡ operand_from sub };

    fn from(sub: u8) -> Self {
        match sub {
            4 => WhereOperand::Value,
            _ => WhereOperand::Other,
        }
    }
}

// The result record of an operand. The value itself becomes the integer 0.
fn lower_where_operand(r: &Record) -> Record
    ensures { result ≡ code.operand r.now }
{
    match WhereOperand::from(r.sub) {
        WhereOperand::Value => Record::bare(Kind::Operand, 0, 0, 0, 0),
        WhereOperand::Other => Record::bare(Kind::Operand, r.sub, r.a, 0, r.v),
    }
}

/// Writes the constraint or operand at record `n`, children first; the number of its root.
#[tactic(auto, using(crate::proofs::Wherever::steps, std::proofs::lemmas::Bool::Decides::nat_tests))]
pub(crate) fn lower_where_expr<const N: usize, const R: usize>(
    lowering: &mut Lowering<'_, '_, '_, '_, N, R>,
    n: u16,
) -> Result<u16, Refusal>
    ensures { Steps N R lowering.old lowering.new result (code.lower_where_expr n) }
{
    let r = lowering.book.record(n);
    match r.kind() {
        Ok(Kind::Logic) => {
            let a = lower_where_expr(lowering, r.a)?;
            match Connective::from(r.sub) {
                Connective::And | Connective::Or => {
                    let b = lower_where_expr(lowering, r.b)?;
                    lowering.emit(&Record::bare(Kind::Logic, r.sub, a, b, 0))
                }
                Connective::Not => lowering.emit(&Record::bare(Kind::Logic, r.sub, a, 0, 0)),
            }
        }
        Ok(Kind::Comparison) => {
            let a = lower_where_expr(lowering, r.a)?;
            lowering.emit(&Record::bare(Kind::Comparison, r.sub, a, 0, 0).with_c(r.c))
        }
        Ok(Kind::Range) => {
            let a = lower_where_expr(lowering, r.a)?;
            let b = lower_where_expr(lowering, r.b)?;
            lowering.emit(&Record::bare(Kind::Range, r.sub, a, b, 0).with_c(r.c))
        }
        _ => lowering.emit(&lower_where_operand(&r)),
    }
}

/// Writes the constraint of a field, which may have none; the number of its root.
pub(crate) fn lower_constraint<const N: usize, const R: usize>(
    lowering: &mut Lowering<'_, '_, '_, '_, N, R>,
    constraint: Option<u16>,
) -> Result<Option<u16>, Refusal>
    ensures { Steps N R lowering.old lowering.new result (code.lower_constraint constraint) }
{
    match constraint {
        Some(n) => Ok(Some(lower_where_expr(lowering, n)?)),
        None => Ok(None),
    }
}
