//! The parts of a book, one after the other, with tables of the size that it needs; and the reply.

ghost use Rattle.std.specs.Prelude.{◌≡◌, ◌<◌, ◌≤◌, ◌^◌, [], length};
ghost use Rattle.record.specs.Written.{all_of};
ghost use Rattle.book.specs.Faults.{is_declaration};
ghost use Rattle.book.specs.Outline.{numbers_of};
ghost use Rattle.constants.specs.Given.{NamesIn};
ghost use Rattle.types.specs.Code.{Steps};
ghost use Rattle.types.specs.Begun.{begun};
ghost use Rattle.types.specs.Tables.{tables};
ghost use Rattle.lower.specs.Ended.{LowersRead};
ghost use Rattle.lower.specs.Inside.{entered, evaluated, fits, lower_parts, lower_whole, valued, replied, left_by, Replies};

use crate::{Counted, Counts};
use bodies::body::lower_bodies;
use bodies::reached::lower_constants;
use book::outline::{FewRecords, Outline};
use book::{Book, NAMES, RECORDS};
use constants::reached::{Order, Settled, Values};
use record::refusal::Refusal;
use record::write;
use types::lowering::Lowering;
use types::names::Names;
use types::room::names_below;
use types::{LowerCtx, MOST_DIAGNOSTICS, MOST_RESULTS};

// The sizes of tables. A book with at most so many records, whose names are below the same number, takes the smallest:
// so clearing them takes less time than lowering it.
const LEAST: usize = 84;

// A book that does not fit those takes the next; then those with room for as many records, but for all names; and else
// the greatest, which have room for any.
const FEW: usize = 336;

// Whether tables for names below `names` and for so many records have room for a book.
fn fits(book: &Book<'_>, names: usize, records: usize) -> bool
    ensures { result ≡ fits names records book.now }
{
    usize::from(book.len()) <= records && names_below(book, names)
}

// What is lowered of a book: its declarations, its reached constants, and its declarations and items.
#[derive(Clone, Copy)]
struct Parts<'a> {
    declarations: &'a [u16],
    settled: &'a [Settled],
    outside: &'a [u16],
}

// Lowers plain aliases, constants and bodies, the names being known; the counters behind them.
#[tactic(auto, unfolding(crate::specs::Inside::lower_parts, record::specs::Written::shown))]
fn lower_parts<const N: usize, const R: usize>(
    lowering: &mut Lowering<'_, '_, '_, '_, N, R>,
    parts: Parts<'_>,
) -> Result<LowerCtx, Refusal>
    ensures { Steps N R lowering.old lowering.new result
        (lower_parts parts.entry.declarations.now parts.entry.settled.now parts.entry.outside.now) }
{
    lowering.lower_aliases(parts.declarations)?;
    lower_constants(lowering, parts.settled)?;
    lower_bodies(lowering, parts.outside)?;
    Ok(LowerCtx {
        next: lowering.names.next,
        results: lowering.written.count,
        diagnostics: lowering.told.count,
    })
}

// The same from the start, into the two slices. They stay two parameters, here and below: a struct over slices that are
// changed tells its lender nothing of what they hold at the end.
fn lower_known<const N: usize, const R: usize>(
    book: &Book<'_>,
    names: &mut Names<N, R>,
    parts: Parts<'_>,
    results: &mut [u8],
    diagnostics: &mut [u8],
) -> Result<LowerCtx, Refusal>
    ensures answer { result
        ≡ (lower_parts parts.entry.declarations.now parts.entry.settled.now parts.entry.outside.now
        (begun book.now (tables N R names.old) results.old diagnostics.old)).answer }
    ensures results { results.new
        ≡ all_of (lower_parts parts.entry.declarations.now parts.entry.settled.now parts.entry.outside.now
        (begun book.now (tables N R names.old) results.old diagnostics.old)).state.results }
    ensures diagnostics { diagnostics.new
        ≡ all_of (lower_parts parts.entry.declarations.now parts.entry.settled.now parts.entry.outside.now
        (begun book.now (tables N R names.old) results.old diagnostics.old)).state.diagnostics }
{
    let mut lowering = Lowering::new(book, names, results, diagnostics);
    lower_parts(&mut lowering, parts)
}

// How many of some constants have a value.
fn count_stored(settled: &[Settled]) -> u16
    requires { length settled.now < 2 ^ 16 }
    ensures { result ≡ valued settled.now }
{
    settled.iter().filter(|c| c.value.is_some()).count() as u16
}

// The counters and the reply to how the parts ended. A refusal leaves zeros up to the limits.
fn reply_to(
    end: Result<LowerCtx, Refusal>,
    stored: u16,
    results: &mut [u8],
    diagnostics: &mut [u8],
) -> Counted
    ensures reply { result ≡ replied end stored }
    ensures results { results.new ≡ left_by end 2048 results.old }
    ensures diagnostics { diagnostics.new ≡ left_by end 256 diagnostics.old }
{
    match end {
        Ok(behind) => Counted {
            ctx: behind,
            reply: Ok(Counts {
                results: behind.results,
                diagnostics: behind.diagnostics,
                constants: stored,
            }),
        },
        Err(refusal) => {
            write::clear(results, MOST_RESULTS);
            write::clear(diagnostics, MOST_DIAGNOSTICS);
            Counted {
                ctx: LowerCtx::default(),
                reply: Err(refusal),
            }
        }
    }
}

// A book, for which tables of names below `N` and of `R` records have room.
#[derive(Clone, Copy)]
struct Fitting<'b, const N: usize, const R: usize> {
    book: &'b Book<'b>,
    ghost few: { N ≤ 4096 },
    ghost names: { NamesIn book.now N },
    ghost records: { (length book.now.records ≤ R) × (R ≤ 1344) },
}

impl<'b, const N: usize, const R: usize> Fitting<'b, N, R> {
    // Puts the reached constants into an order that is empty.
    fn settle_constants(&self, declarations: &[u16], order: &mut Order<R>)
        requires declarations { declarations.now ≡ numbers_of is_declaration self.now.book.now }
        requires none { order.old ≡ [] }
        ensures { order.new ≡ evaluated self.now.book.now }
    {
        let mut values = Values::<N>::none();
        constants::evaluate(self.book, declarations, &mut values, order);
    }

    // Registers the declarations, and lowers the parts. Tables that a function begins with are cleared once.
    fn lower_named(
        &self,
        parts: Parts<'_>,
        results: &mut [u8],
        diagnostics: &mut [u8],
    ) -> Result<LowerCtx, Refusal>
        ensures answer { result
            ≡ (lower_parts parts.entry.declarations.now parts.entry.settled.now parts.entry.outside.now
            (entered N R self.now.book.now parts.entry.declarations.now results.old diagnostics.old)).answer }
        ensures results { results.new
            ≡ all_of (lower_parts parts.entry.declarations.now parts.entry.settled.now parts.entry.outside.now
            (entered N R self.now.book.now parts.entry.declarations.now results.old diagnostics.old)).state.results }
        ensures diagnostics { diagnostics.new
            ≡ all_of (lower_parts parts.entry.declarations.now parts.entry.settled.now parts.entry.outside.now
            (entered N R self.now.book.now parts.entry.declarations.now results.old diagnostics.old)).state.diagnostics }
    {
        let mut names = Names::<N, R>::new();
        names.register(self.book, parts.declarations);
        lower_known(self.book, &mut names, parts, results, diagnostics)
    }

    // Lowers the book.
    #[tactic(auto, unfolding(crate::specs::Inside::lower_whole))]
    fn lower(&self, results: &mut [u8], diagnostics: &mut [u8]) -> Counted
        ensures { Replies (lower_whole N R self.now.book.now results.old diagnostics.old) (valued (evaluated self.now.book.now))
            result results.new diagnostics.new }
    {
        let mut order = Order::<R>::none();
        let mut outline = Outline::<R>::none();
        outline.note_all(FewRecords { book: self.book });
        self.settle_constants(outline.declarations(), &mut order);
        let stored = count_stored(order.settled());
        let parts = Parts {
            declarations: outline.declarations(),
            settled: order.settled(),
            outside: outline.outside(),
        };
        let end = self.lower_named(parts, results, diagnostics);
        reply_to(end, stored, results, diagnostics)
    }
}

// Lowers a book, with tables no larger than it needs.
pub(crate) fn lower_read(book: &Book<'_>, results: &mut [u8], diagnostics: &mut [u8]) -> Counted
    ensures { LowersRead book.now results.old diagnostics.old result results.new diagnostics.new }
{
    book.laws();
    if fits(book, LEAST, LEAST) {
        Fitting::<LEAST, LEAST> { book }.lower(results, diagnostics)
    } else if fits(book, FEW, FEW) {
        Fitting::<FEW, FEW> { book }.lower(results, diagnostics)
    } else if usize::from(book.len()) <= FEW {
        Fitting::<NAMES, FEW> { book }.lower(results, diagnostics)
    } else {
        Fitting::<NAMES, RECORDS> { book }.lower(results, diagnostics)
    }
}
