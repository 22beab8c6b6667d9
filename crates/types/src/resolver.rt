//! The two resolvers, over type records. The remaining depth falls at every call.

ghost use Rattle.types.specs.Code.{Steps};
ghost use Rattle.types.specs.Walk as walk;

use crate::diagnostic::Message;
use crate::lowering::{Head, Lowering, TypeExpr, type_expr};
use crate::spot::Spot;
use record::kind::Kind;
use record::refusal::{Cause, Refusal};
use record::{Record, Span};

/// The steps that a type may take to be resolved.
pub const DEPTH: u8 = 64;

/// The parameter of a generic alias, and what stands in its place.
#[derive(Clone, Copy)]
pub struct Substitution {
    pub parameter: u16,
    pub argument: u16,
}

impl<'b, 'n, 'r, 'd, const N: usize, const R: usize> Lowering<'b, 'n, 'r, 'd, N, R> {
    // The type at record `n`, in at most `left` steps, with the span that it has where it stands; the number of its
    // root.
    #[cycle(resolver)]
    #[tactic(auto, using(crate::proofs::WalkSteps::steps, std::proofs::lemmas::Bool::Decides::nat_tests))]
    fn resolve_type_expr(&mut self, left: u8, n: u16, span: Span) -> Result<u16, Refusal>
        ensures { Steps N R self.old self.new result (walk.resolve left n span) }
    {
        if left == 0 {
            return Err(self.refusal(Cause::TooDeep));
        }
        match type_expr(&self.book.record(n)) {
            TypeExpr::Plain(kind, sub, a) => self.emit_bare(kind, sub, a, 0, 0),
            TypeExpr::Name(name) => self.resolve_name(name, span),
            TypeExpr::Qualified(space, name) => self.resolve_qualified(space, name, span),
            TypeExpr::Generic(name, argument) => match self.find_head(name) {
                Head::Alias(generic) => {
                    let at = self.walk(Spot {
                        left: left - 1,
                        n: generic.target,
                        inside: Some(Substitution {
                            parameter: generic.parameter,
                            argument,
                        }),
                    });
                    match at.inside {
                        None => self.resolve_type_expr(at.left, at.n, span),
                        Some(inside) => self.resolve_type_expr_with_substitution(
                            at.left, inside, at.n, span,
                        ),
                    }
                }
                Head::NoAlias => self.poison(Message::NotGeneric, name, 0, span),
                Head::NoNumber => self.poison(Message::UnresolvedHead, name, 0, span),
            },
            TypeExpr::One(sub, size, a) => {
                let at = self.book.record(a).span;
                let child = self.resolve_type_expr(left - 1, a, at)?;
                self.emit_bare(Kind::OverOne, sub, child, 0, size)
            }
            TypeExpr::Two(sub, a, b) => {
                let at = self.book.record(a).span;
                let one = self.resolve_type_expr(left - 1, a, at)?;
                let at = self.book.record(b).span;
                let other = self.resolve_type_expr(left - 1, b, at)?;
                self.emit_bare(Kind::OverTwo, sub, one, other, 0)
            }
        }
    }

    // The same inside a generic's target, with an argument for its parameter. The two share arms and are two functions
    // that call each other all the same, so that they are read beside the definitions, which are two.
    #[cycle(resolver)]
    #[tactic(auto, using(crate::proofs::WalkSteps::steps, std::proofs::lemmas::Bool::Decides::nat_tests))]
    fn resolve_type_expr_with_substitution(
        &mut self,
        left: u8,
        substitution: Substitution,
        n: u16,
        span: Span,
    ) -> Result<u16, Refusal>
        ensures { Steps N R self.old self.new result (walk.resolve_inside left substitution.parameter substitution.argument n span) }
    {
        if left == 0 {
            return Err(self.refusal(Cause::TooDeep));
        }
        match type_expr(&self.book.record(n)) {
            TypeExpr::Name(name) if name == substitution.parameter => {
                let at = self.walk(Spot {
                    left: left - 1,
                    n: substitution.argument,
                    inside: None,
                });
                match at.inside {
                    None => self.resolve_type_expr(at.left, at.n, span),
                    Some(inside) => {
                        self.resolve_type_expr_with_substitution(at.left, inside, at.n, span)
                    }
                }
            }
            TypeExpr::Plain(kind, sub, a) => self.emit_bare(kind, sub, a, 0, 0),
            TypeExpr::Name(name) => self.resolve_name(name, span),
            TypeExpr::Qualified(space, name) => self.resolve_qualified(space, name, span),
            TypeExpr::Generic(name, inner) => match self.find_head(name) {
                Head::Alias(generic) => {
                    let at = self.walk(Spot {
                        left: left - 1,
                        n: generic.target,
                        inside: Some(Substitution {
                            parameter: generic.parameter,
                            argument: inner,
                        }),
                    });
                    match at.inside {
                        None => self.resolve_type_expr(at.left, at.n, span),
                        Some(inside) => self.resolve_type_expr_with_substitution(
                            at.left, inside, at.n, span,
                        ),
                    }
                }
                Head::NoAlias => self.poison(Message::NotGeneric, name, 0, span),
                Head::NoNumber => self.poison(Message::Unresolved, name, 0, span),
            },
            TypeExpr::One(sub, size, a) => {
                let at = self.book.record(a).span;
                let child = self.resolve_type_expr_with_substitution(
                    left - 1,
                    substitution,
                    a,
                    at,
                )?;
                self.emit_bare(Kind::OverOne, sub, child, 0, size)
            }
            TypeExpr::Two(sub, a, b) => {
                let at = self.book.record(a).span;
                let one = self.resolve_type_expr_with_substitution(left - 1, substitution, a, at)?;
                let at = self.book.record(b).span;
                let other = self.resolve_type_expr_with_substitution(
                    left - 1,
                    substitution,
                    b,
                    at,
                )?;
                self.emit_bare(Kind::OverTwo, sub, one, other, 0)
            }
        }
    }

    /// The type at record `n`, of a declaration or an item; the number of its root.
    #[tactic(auto, using(crate::proofs::WalkSteps::steps))]
    pub fn resolve_type(&mut self, n: u16) -> Result<u16, Refusal>
        ensures { Steps N R self.old self.new result (walk.walked n) }
    {
        let item = self.book.record(n);
        // A primitive, the most frequent type, takes no further step.
        if let Ok(Kind::Primitive) = item.kind() {
            return self.emit(&Record::bare(Kind::Primitive, item.sub, 0, 0, 0));
        }
        self.resolve_type_expr(DEPTH, n, item.span)
    }
}
