//! Plain aliases, in book order; from then on names are known by them.

ghost use Rattle.std.specs.Prelude.{◌≡◌};
ghost use Rattle.types.specs.Code.{Steps};
ghost use Rattle.types.specs.PlainAliases as plain;

use crate::lowering::Lowering;
use crate::names::Place;
use crate::registry::is_plain_alias;
use record::Record;
use record::kind::Kind;
use record::refusal::Refusal;

// The result record of a plain alias, over the root of its type.
fn lowered_alias(item: &Record, root: u16) -> Record
    ensures { result ≡ plain.lowered_alias item.now root }
{
    Record::bare(Kind::LoweredAlias, 0, item.a, root, 0).with_span(item.span)
}

impl<'b, 'n, 'r, 'd, const N: usize, const R: usize> Lowering<'b, 'n, 'r, 'd, N, R> {
    // Lowers the plain alias at record `n`.
    #[tactic(auto, unfolding(crate::specs::PlainAliases::lower_alias))]
    fn lower_alias(&mut self, n: u16) -> Result<(), Refusal>
        ensures { Steps N R self.old self.new result (plain.lower_alias n) }
    {
        let item = self.book.record(n);
        let first = self.result_count();
        self.place = n;
        let root = self.resolve_type(item.b)?;
        self.emit(&lowered_alias(&item, root))?;
        self.names.add_alias(item.a, Place { first, root });
        Ok(())
    }

    /// Lowers the plain aliases among some declarations.
    #[tactic(auto, using(crate::proofs::AliasSteps::alias_steps))]
    pub fn lower_aliases(&mut self, declarations: &[u16]) -> Result<(), Refusal>
        ensures { Steps N R self.old self.new result (plain.lower_aliases declarations.now) }
    {
        for n in declarations {
            if is_plain_alias(self.book, *n) {
                self.lower_alias(*n)?;
            }
        }
        Ok(())
    }
}
