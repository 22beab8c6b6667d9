//! Which records of a book are declarations, and which are declarations or items: noted once, in one pass over the
//! kinds.

ghost use Rattle.std.specs.Prelude.{◌≡◌, ◌||◌, cond, ◌+◌, ◌≤◌, ◌<◌, [], ◌∷◌, ◌++◌, length, take};
ghost use Rattle.book.specs.Noted.{noted_of, nothing_noted, declares, is_item};

use crate::readable::Book;
use record::kind::{Kind, UnknownKind};
use std::marker::Model;

/// A book that has at most `R` records.
#[derive(Clone, Copy)]
pub struct FewRecords<'b, const R: usize> {
    pub book: &'b Book<'b>,
    ghost few: { length book.now.records ≤ R },
}

/// Two lists of record numbers, each in book order. A book has at most `R` records. They are arrays with their lengths:
/// vectors of a fixed capacity were tried, and an ordinary book of 21 records took 141 instructions more.
#[derive(Drop)]
pub struct Outline<const R: usize> {
    declarations: [u16; R],
    declared: usize,
    outside: [u16; R],
    noted: usize,
}

impl<const R: usize> Model for Outline<R> {
    ghost use Rattle.std.specs.Prelude.{◌≤◌, length, take};
    ghost use Rattle.book.specs.Noted.{Noted};

    ghost Value = { Noted };

    ghost view = { λ o. record { declarations = take o.declared o.declarations; outside = take o.noted o.outside } };

    ghost invariant = { λ o. (o.declared ≤ length o.declarations) × (o.noted ≤ length o.outside) };
}

// Whether a kind is that of a declaration.
fn declares(kind: Result<Kind, UnknownKind>) -> bool
    ensures { result ≡ declares kind }
{
    kind.is_ok_and(|kind| kind.is_declaration())
}

// Whether a kind is that of an item.
fn is_item(kind: Result<Kind, UnknownKind>) -> bool
    ensures { result ≡ is_item kind }
{
    kind.is_ok_and(|kind| kind.is_item())
}

// Whether a kind is that of a declaration or an item.
fn is_outside(kind: Result<Kind, UnknownKind>) -> bool
    ensures { result ≡ declares kind || is_item kind }
{
    declares(kind) || is_item(kind)
}

// Puts a number behind so many others, if it is one of those looked for; how many there are then. The test stands in
// here, so that the loop over the records says of both lists at once what is in them.
fn note(list: &mut [u16], count: usize, n: u16, found: bool) -> usize
    requires { count < length list.old }
    ensures list { take result list.new ≡ take count list.old ++ cond found (n ∷ []) [] }
    ensures count { (count ≤ result) × (result ≤ count + 1) }
{
    if found {
        list[count] = n;
        count + 1
    } else {
        count
    }
}

impl<const R: usize> Outline<R> {
    /// With nothing noted.
    pub fn none() -> Outline<R>
        ensures { result ≡ nothing_noted }
    {
        Outline {
            declarations: [0; R],
            declared: 0,
            outside: [0; R],
            noted: 0,
        }
    }

    /// Notes what a book has, in place of what was noted. The arrays are filled where they are: an outline that is made
    /// and handed on is copied.
    pub fn note_all(&mut self, few: FewRecords<'_, R>)
        ensures { self.new ≡ noted_of few.entry.book.now }
    {
        let book = few.book;
        self.declared = 0;
        self.noted = 0;
        let mut declared: usize = 0;
        let mut noted: usize = 0;
        book.laws();
        for n in 0..book.len() {
            let kind = book.kind(n);
            declared = note(&mut self.declarations, declared, n, declares(kind));
            noted = note(&mut self.outside, noted, n, is_outside(kind));
        }
        self.declared = declared;
        self.noted = noted;
    }

    /// The outline of a book.
    pub fn of(few: FewRecords<'_, R>) -> Outline<R>
        ensures { result ≡ noted_of few.entry.book.now }
    {
        let mut outline = Outline::none();
        outline.note_all(few);
        outline
    }

    /// The numbers of the declarations.
    pub fn declarations(&self) -> &[u16]
        ensures { result.now ≡ self.now.declarations }
    {
        &self.declarations[..self.declared]
    }

    /// The numbers of the declarations and items.
    pub fn outside(&self) -> &[u16]
        ensures { result.now ≡ self.now.outside }
    {
        &self.outside[..self.noted]
    }
}
