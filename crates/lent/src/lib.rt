//! The lowering with its counters lent, and its diagnostics as a list of structs.

#![tactic(auto)]

ghost use Rattle.std.specs.Prelude.{◌≡◌, ◌++◌, ◌≤◌, length, drop};
ghost use Rattle.lent.specs.Lent.{LoweredLent};

use lower::Counts;
use record::Span;
use record::refusal::Refusal;
use types::LowerCtx;

pub mod claims;
pub mod step;

pub use types::diagnostic::ErrorClass;

/// The most diagnostics that are told.
pub const MOST: usize = types::MOST_DIAGNOSTICS as usize;

/// A diagnostic, field for field as its record: its kind is 50, and the zero one, of kind 0, is none. `member` is the
/// name behind the namespace `name` in message 2. Kind and message are bytes, so that each record of zeros and each
/// diagnostic record is a struct.
#[derive(Clone, Copy, Default)]
pub struct Diagnostic {
    pub kind: u8,
    pub message: u8,
    pub name: u16,
    pub member: u16,
    pub class: ErrorClass,
    pub span: Span,
}

// Appends what was told to a list of diagnostics that has none yet.
fn append(diagnostics: &mut [Diagnostic], told: &[Diagnostic])
    requires { length told.now ≤ length diagnostics.old }
    ensures { diagnostics.new ≡ told.now ++ drop (length told.now) diagnostics.old }
{
    diagnostics[..told.len()].copy_from_slice(told);
}

/// Lowers a book: its counters are lent and changed, and its diagnostics are a list of structs. What the counters hold
/// at entry does not matter. A book that causes 1 to 8 turn back leaves all as it was; 9 and 10 leave counters of 0,
/// and zeros up to the limits.
pub fn lower_lent(
    ctx: &mut LowerCtx,
    book: &[u8],
    results: &mut [u8],
    diagnostics: &mut [Diagnostic],
) -> Result<Counts, Refusal>
    ensures { LoweredLent ctx.old book.now results.old diagnostics.old result
        ctx.new results.new diagnostics.new }
{
    let behind = step::lower_step(*ctx, book, results, diagnostics.len());
    *ctx = behind.ctx;
    append(diagnostics, &behind.told[..behind.count]);
    behind.reply
}
