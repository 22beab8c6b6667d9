//! Expressions of constants, by recursion on the record numbers of their sides, which are always smaller.

ghost use Rattle.std.specs.Prelude.{◌≡◌};
ghost use Rattle.arith.specs.Checked.{answer};
ghost use Rattle.book.specs.Outline.{◌!◌};
ghost use Rattle.constants.specs.Eval.{literal_value, apply, eval_const_expr};
ghost use Rattle.constants.specs.Given.{table_in};
ghost use Rattle.constants.specs.Tree.{node_of, SidesEarlier, literal_named, op_named, literal_by, op_by, tree};

use crate::reached::Values;
use book::readable::Book;
use record::Record;
use record::kind::Kind;

/// What a literal is, by its sub. An accepted record has one of the subs 0 to 4.
#[derive(Clone, Copy)]
pub(crate) enum Literal {
    Int,
    UInt,
    Float,
    Hex,
    Bool,
}

impl From<u8> for Literal {
    ghost from_gives = { λ sub literal. literal ≡ literal_by sub };

    #[tactic(auto, using(crate::proofs::Trees::leaves))]
    fn from(sub: u8) -> Literal {
        match sub {
            0 => Literal::Int,
            1 => Literal::UInt,
            2 => Literal::Float,
            3 => Literal::Hex,
            _ => Literal::Bool,
        }
    }
}

/// What an operation does, by its sub. An accepted record has one of the subs 0 to 9.
#[derive(Clone, Copy)]
pub(crate) enum BinOp {
    Add,
    Sub,
    Mul,
    Div,
    Eq,
    Ne,
    Lt,
    Le,
    Gt,
    Ge,
}

impl From<u8> for BinOp {
    ghost from_gives = { λ sub op. op ≡ op_by sub };

    #[tactic(auto, using(crate::proofs::Trees::leaves))]
    fn from(sub: u8) -> BinOp {
        match sub {
            0 => BinOp::Add,
            1 => BinOp::Sub,
            2 => BinOp::Mul,
            3 => BinOp::Div,
            4 => BinOp::Eq,
            5 => BinOp::Ne,
            6 => BinOp::Lt,
            7 => BinOp::Le,
            8 => BinOp::Gt,
            _ => BinOp::Ge,
        }
    }
}

/// A record of an expression.
#[derive(Clone, Copy)]
pub(crate) enum Node {
    /// A literal, and its 64 bits.
    Value(Literal, u64),
    /// A reference to a name.
    Name(u16),
    /// An operation, and the records of its sides.
    Sides(BinOp, u16, u16),
    /// The record is of no expression.
    Other,
}

// A record, taken apart.
#[inline(always)]
fn node_of(r: Record) -> Node
    ensures { result ≡ node_of r }
{
    match r.kind() {
        Ok(Kind::Reference) => Node::Name(r.a),
        Ok(Kind::Literal) => Node::Value(Literal::from(r.sub), r.v),
        Ok(Kind::Operation) => Node::Sides(BinOp::from(r.sub), r.a, r.b),
        _ => Node::Other,
    }
}

/// Record `n`, taken apart.
#[inline(always)]
pub(crate) fn take_apart(book: &Book<'_>, n: u16) -> Node
    ensures value { result ≡ node_of (book.now ! n) }
    ensures earlier { SidesEarlier n result }
{
    node_of(book.record(n))
}

// The value of a literal. Those of Float and Bool have none.
#[tactic(auto, using(crate::proofs::Words::words), unfolding(crate::specs::Eval::literal_value))]
fn literal_value(literal: Literal, bits: u64) -> Option<i64>
    ensures { answer result ≡ literal_value (literal_named literal) bits }
{
    match literal {
        Literal::Int | Literal::UInt | Literal::Hex => Some(arith::as_i64(bits)),
        Literal::Float | Literal::Bool => None,
    }
}

// The value of an operation on two values. Comparisons have none.
#[tactic(auto, using(crate::proofs::Words::words), unfolding(crate::specs::Eval::apply))]
fn apply(op: BinOp, x: i64, y: i64) -> Option<i64>
    ensures { answer result ≡ apply (op_named op) x y }
{
    match op {
        BinOp::Add => arith::checked_add(x, y),
        BinOp::Sub => arith::checked_sub(x, y),
        BinOp::Mul => arith::checked_mul(x, y),
        BinOp::Div => arith::checked_div(x, y),
        BinOp::Eq | BinOp::Ne | BinOp::Lt | BinOp::Le | BinOp::Gt | BinOp::Ge => None,
    }
}

/// The value of the expression at record `n`, over the values of names.
#[tactic(auto, using(crate::proofs::Words::words))]
pub(crate) fn eval_const_expr<const N: usize>(
    book: &Book<'_>,
    n: u16,
    values: &Values<N>,
) -> Option<i64>
    ensures { answer result ≡ eval_const_expr (table_in values.now.values) (tree book.now n) }
{
    match take_apart(book, n) {
        Node::Value(literal, bits) => literal_value(literal, bits),
        Node::Name(name) => values.of(name),
        Node::Sides(op, left, right) => {
            let x = eval_const_expr(book, left, values)?;
            let y = eval_const_expr(book, right, values)?;
            apply(op, x, y)
        }
        Node::Other => None,
    }
}
