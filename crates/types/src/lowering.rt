//! All that a lowering reads and writes, and what the resolvers do without a further step.

ghost use Rattle.std.specs.Prelude.{◌≡◌};
ghost use Rattle.record.specs.Kind.{kind_from};
ghost use Rattle.record.specs.Made.{bare_record};
ghost use Rattle.record.specs.Written.{read_at};
ghost use Rattle.types.specs.Begun.{begun};
ghost use Rattle.types.specs.Tables.{tables};
ghost use Rattle.types.specs.Messages.{message_number, message_class, class_number};
ghost use Rattle.types.specs.Code.{Steps, state_of};
ghost use Rattle.types.specs.Code as code;

use crate::diagnostic::Message;
use crate::names::{Generic, Names, Place};
use crate::{MOST_DIAGNOSTICS, MOST_RESULTS, POISON_TYPE_ID};
use book::Book;
use record::cursor::Cursor;
use record::kind::Kind;
use record::refusal::{Cause, Refusal};
use record::type_id::{TypeId, named};
use record::{Record, Span};

/// All that a lowering reads and writes. The slices stand beside their cursors: a struct over a slice that is changed
/// tells its lender nothing of what the slice holds at the end.
#[derive(Drop)]
pub struct Lowering<'b, 'n, 'r, 'd, const N: usize, const R: usize> {
    pub book: &'b Book<'b>,
    pub names: &'n mut Names<N, R>,
    pub results: &'r mut [u8],
    pub written: Cursor,
    pub diagnostics: &'d mut [u8],
    pub told: Cursor,
    pub place: u16,
}

/// A type record, its children by their record numbers.
#[derive(Clone, Copy)]
pub enum TypeExpr {
    /// One that is carried through: the kind, sub and first field of its result record.
    Plain(Kind, u8, u16),
    Name(u16),
    /// Namespace and name.
    Qualified(u16, u16),
    /// Head and argument.
    Generic(u16, u16),
    /// Sub, size and child. A sub is carried through as the number that it is.
    One(u8, u64, u16),
    /// Sub and children.
    Two(u8, u16, u16),
}

/// What a name is found to be.
#[derive(Clone, Copy)]
pub enum Found {
    Alias(Place),
    Known(TypeId),
    Stub,
    Unresolved(Message),
}

/// What the head of a generic is found to be.
#[derive(Clone, Copy)]
pub enum Head {
    Alias(Generic),
    NoAlias,
    NoNumber,
}

/// A diagnostic, by the numbers of its message and its class, which may be any.
pub fn message(m: u8, a: u16, b: u16, class: u64, span: Span) -> Record
    ensures { result ≡ code.message m a b class span }
{
    Record::bare(Kind::Diagnostic, m, a, b, class).with_span(span)
}

// The type that a record is.
pub(crate) fn type_expr(r: &Record) -> TypeExpr
    ensures { result ≡ code.type_expr r.now (kind_from r.now.kind) }
{
    match r.kind() {
        Ok(Kind::Primitive) => TypeExpr::Plain(Kind::Primitive, r.sub, 0),
        Ok(Kind::SubByte) => TypeExpr::Plain(Kind::SubByte, r.sub, r.a),
        Ok(Kind::Semantic) => TypeExpr::Plain(Kind::Semantic, r.sub, 0),
        Ok(Kind::Named) => TypeExpr::Name(r.a),
        Ok(Kind::Qualified) => TypeExpr::Qualified(r.a, r.b),
        Ok(Kind::Generic) => TypeExpr::Generic(r.a, r.b),
        Ok(Kind::OverOne) => TypeExpr::One(r.sub, r.v, r.a),
        Ok(Kind::OverTwo) => TypeExpr::Two(r.sub, r.a, r.b),
        _ => TypeExpr::Plain(Kind::InlineBits, 0, r.a),
    }
}

// A record of a type, so much further on: its references move along.
#[inline(always)]
fn shifted(r: Record, by: u16) -> Record
    ensures { result ≡ code.shifted by r (kind_from r.kind) }
{
    match r.kind() {
        Ok(Kind::OverOne) => Record {
            a: r.a.saturating_add(by),
            ..r
        },
        Ok(Kind::OverTwo) => Record {
            a: r.a.saturating_add(by),
            b: r.b.saturating_add(by),
            ..r
        },
        _ => r,
    }
}

impl<'b, 'n, 'r, 'd, const N: usize, const R: usize> Lowering<'b, 'n, 'r, 'd, N, R> {
    /// With nothing written, and nothing being lowered.
    pub fn new(
        book: &'b Book<'b>,
        names: &'n mut Names<N, R>,
        results: &'r mut [u8],
        diagnostics: &'d mut [u8],
    ) -> Self
        ensures state { state_of N R result ≡ begun book.now (tables N R names.old) results.old diagnostics.old }
        ensures names { result.names.ghost_name ≡ names.entry.ghost_name }
        ensures results { result.results.ghost_name ≡ results.entry.ghost_name }
        ensures diagnostics { result.diagnostics.ghost_name ≡ diagnostics.entry.ghost_name }
    {
        Lowering {
            book,
            names,
            results,
            written: Cursor {
                count: 0,
                most: MOST_RESULTS,
            },
            diagnostics,
            told: Cursor {
                count: 0,
                most: MOST_DIAGNOSTICS,
            },
            place: 0,
        }
    }

    /// Why the lowering stops, where it is.
    pub fn refusal(&self, cause: Cause) -> Refusal
        ensures { result ≡ record { cause = cause; place = self.now.place } }
    {
        Refusal {
            cause,
            place: self.place,
        }
    }

    /// Writes a result; its number.
    #[tactic(auto, unfolding(crate::specs::Code::emit))]
    pub fn emit(&mut self, item: &Record) -> Result<u16, Refusal>
        ensures { Steps N R self.old self.new result (code.emit item.now) }
    {
        let full = self.refusal(Cause::Full);
        self.written
            .push(&mut *self.results, item)
            .map_err(|_| full)
    }

    // Writes a result that has a kind and these fields. It is for speed that it is a function and stands in its
    // callers: a record that a resolver makes itself is cleared in its frame at each step, whether it is needed or not.
    #[inline(always)]
    pub(crate) fn emit_bare(
        &mut self,
        kind: Kind,
        sub: u8,
        a: u16,
        b: u16,
        v: u64,
    ) -> Result<u16, Refusal>
        ensures { Steps N R self.old self.new result (code.emit (bare_record kind sub a b v)) }
    {
        self.emit(&Record::bare(kind, sub, a, b, v))
    }

    /// Writes a diagnostic.
    #[tactic(auto, unfolding(crate::specs::Code::tell))]
    pub fn tell(&mut self, item: &Record) -> Result<u16, Refusal>
        ensures { Steps N R self.old self.new result (code.tell item.now) }
    {
        let full = self.refusal(Cause::Full);
        self.told
            .push(&mut *self.diagnostics, item)
            .map_err(|_| full)
    }

    // Writes a message, and poison for the type.
    #[tactic(auto, unfolding(crate::specs::Code::poison))]
    pub(crate) fn poison(
        &mut self,
        message: Message,
        a: u16,
        b: u16,
        span: Span,
    ) -> Result<u16, Refusal>
        ensures { Steps N R self.old self.new result
            (code.poison (message_number message) a b (class_number (message_class message)) span) }
    {
        self.tell(&message.record(a, b, span))?;
        self.emit(&named(TypeId(POISON_TYPE_ID)))
    }

    /// How many results are written.
    #[tactic(auto, unfolding(record::specs::Written::shown))]
    pub fn result_count(&self) -> u16
        ensures { result ≡ (state_of N R self.now).results.count }
    {
        self.written.count
    }

    /// Result `n`, if it is written.
    pub fn result_at(&self, n: u16) -> Option<Record>
        ensures { result ≡ read_at (state_of N R self.now).results n }
    {
        self.written.get(self.results, n)
    }

    // Copies record `at` of a type so much further on. It stands in its caller for speed: as a call a copied record
    // took half as many instructions again.
    #[inline(always)]
    #[tactic(auto, unfolding(crate::specs::Code::copy_one))]
    fn copy_one(&mut self, at: u16, by: u16) -> Result<u16, Refusal>
        ensures { Steps N R self.old self.new result (code.copy_one at by) }
    {
        match self.result_at(at) {
            Some(r) => self.emit(&shifted(r, by)),
            None => Err(self.refusal(Cause::Full)),
        }
    }

    // Copies the type that stands at a place; the number of its root.
    #[tactic(auto, using(crate::proofs::Copies::copies), unfolding(crate::specs::Code::copy_type))]
    fn copy_type(&mut self, place: Place) -> Result<u16, Refusal>
        ensures { Steps N R self.old self.new result (code.copy_type place) }
    {
        let by = self.result_count().saturating_sub(place.first);
        for at in place.first..place.root {
            self.copy_one(at, by)?;
        }
        self.copy_one(place.root, by)
    }

    // The number of a name: its own, or that of a plain alias to one, which a result record has in 64 bits.
    fn look_up(&self, name: u16) -> Option<u64>
        ensures { result ≡ code.look_up name (state_of N R self.now) }
    {
        if let Some(number) = self.names.number_of(name) {
            return Some(u64::from(number.0));
        }
        let place = self.names.alias_of(name)?;
        let root = self.result_at(place.root)?;
        match root.kind() {
            Ok(Kind::Named) => Some(root.v),
            _ => None,
        }
    }

    // What a name is found to be.
    fn find_name(&self, name: u16) -> Found
        ensures { result ≡ code.find_name name (state_of N R self.now) }
    {
        if let Some(place) = self.names.alias_of(name) {
            return Found::Alias(place);
        }
        let number = self.names.number_of(name);
        if let Some(number) = number {
            if number.0 < self.names.types {
                return Found::Known(number);
            }
        }
        if self.names.is_ambiguous(name) {
            return Found::Unresolved(Message::Ambiguous);
        }
        match number {
            Some(number) => Found::Known(number),
            None if self.book.wildcards() => Found::Stub,
            None => Found::Unresolved(Message::Unresolved),
        }
    }

    // What the head of a generic is found to be.
    pub(crate) fn find_head(&self, name: u16) -> Head
        ensures { result ≡ code.find_head name (state_of N R self.now) }
    {
        match self.look_up(name) {
            None => Head::NoNumber,
            Some(number) => match self.names.generic_of(number) {
                None => Head::NoAlias,
                Some(generic) => Head::Alias(generic),
            },
        }
    }

    // A stub for a name.
    #[tactic(auto, unfolding(crate::specs::Code::add_stub))]
    pub(crate) fn add_stub(&mut self, name: u16) -> Result<u16, Refusal>
        ensures { Steps N R self.old self.new result (code.add_stub name) }
    {
        let root = self.emit(&named(TypeId(self.names.next)))?;
        self.names.give_number(name);
        Ok(root)
    }

    // A stub for a qualified name.
    #[tactic(auto, unfolding(crate::specs::Code::add_pair))]
    fn add_pair(&mut self, space: u16, name: u16) -> Result<u16, Refusal>
        ensures { Steps N R self.old self.new result (code.add_pair space name) }
    {
        let root = self.emit(&named(TypeId(self.names.next)))?;
        self.names.add_pair(space, name);
        Ok(root)
    }

    // The type that a name is.
    #[tactic(auto, unfolding(crate::specs::Code::resolve_name))]
    pub(crate) fn resolve_name(&mut self, name: u16, span: Span) -> Result<u16, Refusal>
        ensures { Steps N R self.old self.new result (code.resolve_name name span) }
    {
        match self.find_name(name) {
            Found::Alias(place) => self.copy_type(place),
            Found::Known(number) => self.emit(&named(number)),
            Found::Stub => self.add_stub(name),
            Found::Unresolved(message) => self.poison(message, name, 0, span),
        }
    }

    // The type that a qualified name is.
    #[tactic(auto, unfolding(crate::specs::Code::resolve_qualified))]
    pub(crate) fn resolve_qualified(
        &mut self,
        space: u16,
        name: u16,
        span: Span,
    ) -> Result<u16, Refusal>
        ensures { Steps N R self.old self.new result (code.resolve_qualified space name span) }
    {
        if let Some(number) = self.names.pair_number(space, name) {
            return self.emit(&named(number));
        }
        match self.look_up(space) {
            Some(_) => self.add_pair(space, name),
            None => self.poison(Message::UnresolvedNamespace, space, name, span),
        }
    }
}
