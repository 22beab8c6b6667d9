//! Checked arithmetic of i64, and the casts between i64 and u64, as the definitions say them over the integers.

#![tactic(auto)]

ghost use Rattle.std.specs.Prelude.{◌≡◌};
ghost use Rattle.arith.specs.Word.{signed, as_i64, word};
ghost use Rattle.arith.specs.Checked.{answer, checked_add, checked_sub, checked_mul, checked_div};

/// `a + b`, where i64 holds it.
#[tactic(auto, using(crate::proofs::Answers::answers))]
pub fn checked_add(a: i64, b: i64) -> Option<i64>
    ensures { answer result ≡ checked_add a b }
{
    a.checked_add(b)
}

/// `a - b`, where i64 holds it.
#[tactic(auto, using(crate::proofs::Answers::answers))]
pub fn checked_sub(a: i64, b: i64) -> Option<i64>
    ensures { answer result ≡ checked_sub a b }
{
    a.checked_sub(b)
}

/// `a * b`, where i64 holds it.
#[tactic(auto, using(crate::proofs::Answers::answers))]
pub fn checked_mul(a: i64, b: i64) -> Option<i64>
    ensures { answer result ≡ checked_mul a b }
{
    a.checked_mul(b)
}

/// `a / b`, the fraction dropped, where i64 holds it; none for a zero `b`.
#[tactic(auto, using(crate::proofs::Answers::answers))]
pub fn checked_div(a: i64, b: i64) -> Option<i64>
    ensures { answer result ≡ checked_div a b }
{
    a.checked_div(b)
}

/// `x as i64`: the integer that the 64 bits of `x` stand for.
#[tactic(auto, using(crate::proofs::Answers::answers))]
pub fn as_i64(x: u64) -> i64
    ensures bits { result ≡ signed x }
    ensures cast { result ≡ as_i64 x }
{
    x.cast_signed()
}

/// `x as u64`: the 64 bits of `x`.
#[tactic(auto, using(crate::proofs::Answers::answers))]
pub fn as_u64(x: i64) -> u64
    ensures { result ≡ word x }
{
    x.cast_unsigned()
}
