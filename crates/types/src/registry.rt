//! Numbers of declarations: messages, unions and newtypes first, then generic aliases.

ghost use Rattle.std.specs.Prelude.{◌≡◌};
ghost use Rattle.record.specs.Kind.{kind_from};
ghost use Rattle.book.specs.Outline.{◌!◌};
ghost use Rattle.types.specs.Tables.{tables};
ghost use Rattle.types.specs.Registry.{is_passed_over, parameter_of, parameter_behind, is_plain};
ghost use Rattle.types.specs.Registry.{with_type, with_types, with_alias, with_aliases, registered};

use crate::names::{Generic, Names};
use book::Book;
use record::Record;
use record::kind::Kind;

// Whether a record may stand between an alias and its type parameters.
fn is_passed_over(item: &Record) -> bool
    ensures { result ≡ is_passed_over item.now (kind_from item.now.kind) }
{
    match item.kind() {
        Ok(Kind::Annotation | Kind::Argument | Kind::TombstoneArgument) => true,
        // By the code, since a first byte of 0, which is no kind, is passed over too.
        _ => item.kind <= Kind::Operand.code(),
    }
}

// The name that a record is a type parameter by.
fn parameter_of(item: &Record) -> Option<u16>
    ensures { result ≡ parameter_of item.now (kind_from item.now.kind) }
{
    match item.kind() {
        Ok(Kind::TypeParameter) => Some(item.a),
        _ => None,
    }
}

// The first type parameter of the alias at record `n`.
#[tactic(auto, using(crate::proofs::Registers::parameter_step))]
fn first_parameter(book: &Book<'_>, n: u16) -> Option<u16>
    ensures { result ≡ parameter_behind book.now n }
{
    for m in n.saturating_add(1)..book.len() {
        let item = book.record(m);
        if !is_passed_over(&item) {
            return parameter_of(&item);
        }
    }
    None
}

// Whether record `n` is an alias without a type parameter.
pub(crate) fn is_plain_alias(book: &Book<'_>, n: u16) -> bool
    ensures { result ≡ is_plain (kind_from (book.now ! n).kind) (parameter_behind book.now n) }
{
    match book.kind(n) {
        Ok(Kind::Alias) => first_parameter(book, n).is_none(),
        _ => false,
    }
}

impl<const N: usize, const R: usize> Names<N, R> {
    // Numbers a message, a union or a newtype, and marks a name that is ambiguous.
    fn register_type(&mut self, book: &Book<'_>, n: u16)
        ensures { tables N R self.new ≡ with_type (book.now ! n) (kind_from (book.now ! n).kind) (tables N R self.old) }
    {
        let item = book.record(n);
        match item.kind() {
            Ok(Kind::Message | Kind::Union | Kind::Newtype) => self.give_number(item.a),
            Ok(Kind::Ambiguous) => self.mark_ambiguous(item.a),
            _ => {}
        }
    }

    // The same for some declarations. The generic aliases are gone through after them, by a loop of their own: one loop
    // for both would take the step as a closure over the names.
    #[tactic(auto, using(crate::proofs::Registers::types_step))]
    fn register_types(&mut self, book: &Book<'_>, declarations: &[u16])
        ensures { tables N R self.new ≡ with_types book.now declarations.now (tables N R self.old) }
    {
        for n in declarations {
            self.register_type(book, *n);
        }
    }

    // Numbers a generic alias.
    fn register_alias(&mut self, book: &Book<'_>, n: u16)
        ensures { tables N R self.new
            ≡ with_alias (book.now ! n) (kind_from (book.now ! n).kind) (parameter_behind book.now n) (tables N R self.old) }
    {
        let item = book.record(n);
        if let Ok(Kind::Alias) = item.kind() {
            if let Some(parameter) = first_parameter(book, n) {
                self.add_generic(
                    item.a,
                    Generic {
                        parameter,
                        target: item.b,
                    },
                );
            }
        }
    }

    // The same for some declarations.
    #[tactic(auto, using(crate::proofs::Registers::aliases_step))]
    fn register_aliases(&mut self, book: &Book<'_>, declarations: &[u16])
        ensures { tables N R self.new ≡ with_aliases book.now declarations.now (tables N R self.old) }
    {
        for n in declarations {
            self.register_alias(book, *n);
        }
    }

    /// Numbers the declarations of a book and marks the names that are ambiguous.
    pub fn register(&mut self, book: &Book<'_>, declarations: &[u16])
        ensures { tables N R self.new ≡ registered book.now declarations.now (tables N R self.old) }
    {
        self.register_types(book, declarations);
        self.types = self.next;
        self.register_aliases(book, declarations);
    }
}
