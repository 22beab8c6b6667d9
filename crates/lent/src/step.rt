//! The lowering with its counters and its diagnostics by value.

ghost use Rattle.std.specs.Prelude.{◌≡◌, List, ◌++◌, map, ℕ, ◌-◌, ◌≤◌, length, replicate};
ghost use Rattle.lower.specs.Laws.{first_records};
ghost use Rattle.lower.specs.Promise.{reply_of};
ghost use Rattle.lent.specs.Diagnostics.{diagnostic_of, no_diagnostic};
ghost use Rattle.lent.specs.Lent.{front, Stepped};

use crate::{Diagnostic, ErrorClass, MOST};
use lower::{Counted, Counts};
use record::refusal::{Cause, Refusal};
use record::{RECORD_BYTES, Record, write};
use types::LowerCtx;

/// What lowering a book gives: the counters, the reply, and the diagnostics, `count` of them at the front of `told` and
/// zero ones behind them. An `ArrayVec` in the place of these two would not be `Copy`.
#[derive(Clone, Copy)]
pub struct Step {
    pub ctx: LowerCtx,
    pub reply: Result<Counts, Refusal>,
    pub count: usize,
    pub told: [Diagnostic; MOST],
}

impl From<Record> for Diagnostic {
    ghost from_gives = { λ r d. d ≡ diagnostic_of r };

    /// The struct that a diagnostic record is.
    #[tactic(auto, unfolding(crate::specs::Diagnostics::diagnostic_of))]
    fn from(r: Record) -> Self {
        Diagnostic {
            kind: r.kind,
            message: r.sub,
            name: r.a,
            member: r.b,
            class: ErrorClass::from(r.v),
            span: r.span,
        }
    }
}

// The structs of the first n records of a slice, and zero ones behind them.
#[tactic(auto, using(crate::proofs::Structs::reading))]
fn structs(bytes: &[u8], n: u16) -> [Diagnostic; MOST]
    requires { n ≤ MOST }
    ensures { result ≡ map diagnostic_of (first_records n bytes.now) ++ replicate (256 - n) no_diagnostic }
{
    let mut told = [Diagnostic::default(); MOST];
    for k in 0..n {
        told[usize::from(k)] = Diagnostic::from(write::written_at(bytes, k));
    }
    told
}

// How many structs are written at the front of a list: the diagnostics of a book that is accepted, as many zero ones as
// may be told on 9 and 10, and none on 1 to 8.
#[tactic(auto, using(crate::proofs::Ways::counts), unfolding(lower::specs::Promise::reply_of))]
fn front_length(reply: Result<Counts, Refusal>, room: usize) -> u16
    ensures { (bytes : List ℕ) → result ≡ length (front (reply_of reply) bytes room) }
{
    match reply {
        Ok(counts) => counts.diagnostics,
        Err(refusal) => match refusal.cause {
            Cause::TooDeep | Cause::Full => MOST.min(room) as u16,
            _ => 0,
        },
    }
}

/// Lowers a book for a list of so many diagnostics, through 24 zeros for each that may be told.
pub fn lower_step(ctx: LowerCtx, book: &[u8], results: &mut [u8], room: usize) -> Step
    ensures { Stepped ctx book.now results.old room result results.new }
{
    let mut zeros = [0u8; RECORD_BYTES * MOST];
    let bytes = &mut zeros[..RECORD_BYTES * MOST.min(room)];
    let Counted { ctx: after, reply } = lower::lower_counted(ctx, book, results, bytes);
    let n = front_length(reply, room);
    Step {
        ctx: after,
        reply,
        count: usize::from(n),
        told: structs(bytes, n),
    }
}
