//! The steps of the resolvers that write nothing: from a generic to its alias's target, and from a parameter to its
//! argument.

ghost use Rattle.std.specs.Prelude.{◌≡◌, ◌≤◌, ◌<◌, IfSome};
ghost use Rattle.record.specs.declared.Span.{Span};
ghost use Rattle.types.specs.Code.{state_of};
ghost use Rattle.types.specs.Spots.{resolve_at};

use crate::lowering::{Head, Lowering, TypeExpr, type_expr};
use crate::resolver::Substitution;

/// Where a type is resolved: at record `n`, in at most `left` steps, and inside the target of a generic, if it is, with
/// what stands for its parameter.
#[derive(Clone, Copy)]
pub struct Spot {
    pub left: u8,
    pub n: u16,
    pub inside: Option<Substitution>,
}

impl<'b, 'n, 'r, 'd, const N: usize, const R: usize> Lowering<'b, 'n, 'r, 'd, N, R> {
    // One such step, if there is one.
    #[tactic(auto, using(crate::proofs::WalkSteps::leads))]
    fn next_spot(&self, at: Spot) -> Option<Spot>
        ensures falls { IfSome result (λ to. to.left < at.left) }
        ensures same { IfSome result (λ to. (span : Span) →
            resolve_at to span (state_of N R self.now) ≡ resolve_at at span (state_of N R self.now)) }
    {
        if at.left == 0 {
            return None;
        }
        let left = at.left - 1;
        match type_expr(&self.book.record(at.n)) {
            TypeExpr::Name(name) => match at.inside {
                Some(inside) if name == inside.parameter => Some(Spot {
                    left,
                    n: inside.argument,
                    inside: None,
                }),
                _ => None,
            },
            // An inner generic passes its argument on as it stands.
            TypeExpr::Generic(name, passed) => match self.find_head(name) {
                Head::Alias(generic) => Some(Spot {
                    left,
                    n: generic.target,
                    inside: Some(Substitution {
                        parameter: generic.parameter,
                        argument: passed,
                    }),
                }),
                _ => None,
            },
            _ => None,
        }
    }

    // All such steps from a spot on, in a loop: a chain of generic aliases has many.
    pub(crate) fn walk(&self, from: Spot) -> Spot
        ensures falls { result.left ≤ from.left }
        ensures same { (span : Span) →
            resolve_at result span (state_of N R self.now) ≡ resolve_at from span (state_of N R self.now) }
    {
        let mut at = from;
        while let Some(to) = self.next_spot(at) {
            at = to;
        }
        at
    }
}
