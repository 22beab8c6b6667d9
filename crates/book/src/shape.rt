//! The shapes of records: cause 4, and where the children of a record stand.

ghost use Rattle.std.specs.Prelude.{◌≡◌, find, option_copied, length, drop, ◌≤◌, false, IfOk, IfErr};
ghost use Rattle.std.proofs.Math.Option.{some};
ghost use Rattle.record.specs.declared.refusal.Cause.TheVariants as causes;
ghost use Rattle.book.specs.Shape.{table, is_row, row_of, allows, fits, child_in};
ghost use Rattle.book.specs.Rows.{row_from, row_in, field_from, last_in, none_in, children_of, first_row, is_plain, IsRow};

use crate::NAMES;
use Field::{
    Bits, Child, Flag, Free, MaybeChild, MaybeName, MaybeString, Name, Ordinal, String, Unused,
};
use Group::{Constant, Constraint, Declaration, Item, Operand, Type};
use record::kind::Kind;
use record::refusal::{Cause, Refusal};
use record::{NO_REFERENCE, Record, reference};

/// The groups of kinds.
#[derive(Clone, Copy, PartialEq, Eq)]
pub enum Group {
    Type,
    Constant,
    Constraint,
    Operand,
    Declaration,
    Item,
}

impl Group {
    ghost use Rattle.book.specs.Rows.{is_outside_group};

    /// Whether records of the group are no part of a tree.
    pub(crate) fn is_outside(self) -> bool
        ensures { result ≡ is_outside_group self }
    {
        matches!(self, Declaration | Item)
    }
}

/// What a field may hold.
#[derive(Clone, Copy)]
pub enum Field {
    Unused,
    Flag,
    Bits,
    Name,
    MaybeName,
    String,
    MaybeString,
    Ordinal,
    Free,
    Child(Group),
    MaybeChild(Group),
}

/// Records of a kind with a sub from `low` to `high`, and their fields.
#[derive(Clone, Copy)]
pub struct Row {
    pub group: Group,
    pub kind: Kind,
    pub low: u8,
    pub high: u8,
    pub a: Field,
    pub b: Field,
    pub c: Field,
    pub v: Field,
}

/// A record, and its row, inside whose values its fields are. Its number stands beside it, as it does beside each
/// record.
#[derive(Clone, Copy)]
pub(crate) struct Shaped<'a> {
    pub record: &'a Record,
    pub row: &'static Row,
    ghost is_row: { IsRow record.now row.now },
}

// The last sub of a primitive type.
const LAST_PRIMITIVE: u8 = 13;

/// Kinds of a book are below this.
pub const KINDS: usize = 37;

// A row, written short. It is no function, since a constant calls none.
macro_rules! row {
    ($group:expr, $kind:expr, $low:literal..=$high:expr, $a:expr, $b:expr, $c:expr, $v:expr) => {
        Row {
            group: $group,
            kind: $kind,
            low: $low,
            high: $high,
            a: $a,
            b: $b,
            c: $c,
            v: $v,
        }
    };
}

/// The table of shapes. A kind stands in several rows, one behind the other, where its subs have different fields.
#[rattlefmt::skip]
pub const TABLE: [Row; 38] = [
    row!(Type, Kind::Primitive, 0..=LAST_PRIMITIVE, Unused, Unused, Unused, Unused),
    row!(Type, Kind::SubByte, 0..=1, Bits, Unused, Unused, Unused),
    row!(Type, Kind::Semantic, 0..=5, Unused, Unused, Unused, Unused),
    row!(Type, Kind::Named, 0..=0, Name, Unused, Unused, Unused),
    row!(Type, Kind::Qualified, 0..=0, Name, Name, Unused, Unused),
    row!(Type, Kind::Generic, 0..=0, Name, Child(Type), Unused, Unused),
    row!(Type, Kind::OverOne, 0..=1, Child(Type), Unused, Unused, Unused), // Optional, Array
    row!(Type, Kind::OverOne, 2..=2, Child(Type), Unused, Unused, Free), // FixedArray
    row!(Type, Kind::OverOne, 3..=9, Child(Type), Unused, Unused, Unused), // Set, Vec2 to Mat4
    row!(Type, Kind::OverTwo, 0..=1, Child(Type), Child(Type), Unused, Unused), // Map, Result
    row!(Type, Kind::InlineBits, 0..=0, Free, Unused, Unused, Unused),
    row!(Constant, Kind::Literal, 0..=3, Unused, Unused, Unused, Free), // Int, UInt, Float, Hex
    row!(Constant, Kind::Literal, 4..=4, Unused, Unused, Unused, Flag), // Bool
    row!(Constant, Kind::Reference, 0..=0, Name, Unused, Unused, Unused),
    row!(Constant, Kind::Operation, 0..=9, Child(Constant), Child(Constant), Unused, Unused),
    row!(Constraint, Kind::Logic, 0..=1, Child(Constraint), Child(Constraint), Unused, Unused), // And, Or
    row!(Constraint, Kind::Logic, 2..=2, Child(Constraint), Unused, Unused, Unused), // Not
    row!(Constraint, Kind::Comparison, 0..=5, Child(Operand), Unused, Flag, Unused),
    row!(Constraint, Kind::Range, 0..=1, Child(Operand), Child(Operand), Flag, Unused),
    row!(Operand, Kind::Operand, 0..=1, Unused, Unused, Unused, Free), // Int, Float
    row!(Operand, Kind::Operand, 2..=2, String, Unused, Unused, Unused), // String
    row!(Operand, Kind::Operand, 3..=3, Unused, Unused, Unused, Flag), // Bool
    row!(Operand, Kind::Operand, 4..=4, Unused, Unused, Unused, Free), // Value
    row!(Operand, Kind::Operand, 5..=5, Name, Unused, Unused, Unused), // reference
    row!(Declaration, Kind::Message, 0..=0, Name, Unused, Unused, Unused),
    row!(Declaration, Kind::Union, 0..=0, Name, Unused, Unused, Unused),
    row!(Declaration, Kind::Newtype, 0..=0, Name, Child(Type), Unused, Unused),
    row!(Declaration, Kind::Alias, 0..=0, Name, Child(Type), Unused, Unused),
    row!(Declaration, Kind::Constant, 0..=0, Name, Child(Type), Child(Constant), Unused),
    row!(Declaration, Kind::Ambiguous, 0..=0, Name, Unused, Unused, Unused),
    row!(Item, Kind::TypeParameter, 0..=0, Name, Unused, Unused, Unused),
    row!(Item, Kind::Field, 0..=0, Name, Child(Type), MaybeChild(Constraint), Ordinal),
    row!(Item, Kind::Tombstone, 0..=1, Unused, Unused, MaybeChild(Type), Ordinal),
    row!(Item, Kind::Variant, 0..=0, Name, Unused, Unused, Ordinal),
    row!(Item, Kind::Annotation, 0..=4, Unused, Unused, Unused, Unused),
    row!(Item, Kind::Argument, 0..=1, MaybeName, Unused, Unused, Free), // Int, Hex
    row!(Item, Kind::Argument, 2..=2, MaybeName, Unused, Unused, Unused), // other
    row!(Item, Kind::TombstoneArgument, 0..=2, MaybeString, Unused, Unused, Unused),
];

// Where the rows of each kind begin, so that no record is looked for from the first row on; past the last row for what
// is no kind of a book.
#[rattlefmt::skip]
const FIRST: [u8; KINDS] = [
    38, 0, 1, 2, 3, 4, 5, 6, 9, 10, 11, 13, 14, 15, 17, 18, 19, 38, 38, 38, 24,
    25, 26, 27, 28, 29, 38, 38, 38, 38, 30, 31, 32, 33, 34, 35, 37,
];

impl Field {
    ghost use Rattle.book.specs.Rows.{field_from, last_in, none_in, children_of};

    // The last value that a field may hold, apart from the one that stands for no name.
    fn last(self) -> u64
        ensures { result ≡ last_in (field_from self) }
    {
        match self {
            Unused => 0,
            Flag => 1,
            Bits => 255,
            Name | MaybeName => NAMES as u64 - 1,
            String => u64::from(NO_REFERENCE) - 1,
            Ordinal => 0xFFFF_FFFF,
            MaybeString | Free | Child(_) | MaybeChild(_) => u64::MAX,
        }
    }

    // Whether x stands for none in a field that else holds less.
    fn is_none(self, x: u64) -> bool
        ensures { result ≡ none_in (field_from self) x }
    {
        match self {
            MaybeName => x == u64::from(NO_REFERENCE),
            _ => false,
        }
    }

    // Whether a field may hold x.
    #[tactic(auto, using(crate::proofs::Cells::allowed, crate::proofs::Cells::allowed_none))]
    fn allows(self, x: u64) -> bool
        ensures { result ≡ allows (field_from self) x }
    {
        x <= self.last() || self.is_none(x)
    }

    /// The group of the child that a field with the value x names, if it names one.
    #[tactic(auto, unfolding(crate::specs::Shape::child_in))]
    pub(crate) fn child(self, x: u16) -> Option<Group>
        ensures { children_of result x ≡ child_in (field_from self) x }
    {
        match self {
            Child(group) => Some(group),
            MaybeChild(group) => reference(x).map(|_| group),
            Unused | Flag | Bits | Name | MaybeName | String | MaybeString | Ordinal | Free => None,
        }
    }
}

impl Row {
    ghost use Rattle.book.specs.Rows.{row_from};

    // Whether a record is of the row, by its kind and its sub. The kind by its code, since that is one comparison.
    fn takes(&self, r: &Record) -> bool
        ensures { result ≡ is_row r.now (row_from self.now) }
    {
        r.kind == self.kind.code() && self.low <= r.sub && r.sub <= self.high
    }

    // Whether every field of a record is inside the values of the row.
    fn fits(&self, r: &Record) -> bool
        ensures { result ≡ fits r.now (some (row_from self.now)) }
    {
        self.a.allows(u64::from(r.a))
            && self.b.allows(u64::from(r.b))
            && self.c.allows(u64::from(r.c))
            && self.v.allows(r.v)
    }
}

// The number of the first row of a kind, and of all rows where there is none.
fn first_row(kind: u8) -> usize
    ensures { result ≡ first_row kind table }
{
    match FIRST.get(usize::from(kind)) {
        Some(first) => usize::from(*first),
        None => TABLE.len(),
    }
}

// The first of some rows that a record is of.
fn first_of<'a>(rows: &'a [Row], r: &Record) -> Option<&'a Row>
    ensures { option_copied result ≡ find (λ w. is_row r.now (row_from w)) rows.entry.now }
{
    rows.iter().find(|row| row.takes(r))
}

// The rows from a number on.
fn rows_from(rows: &[Row], first: usize) -> &[Row]
    requires { first ≤ length rows.now }
    ensures { result.now ≡ drop first rows.now }
{
    &rows[first..]
}

// The row of a record, if it has one.
fn row_of(r: &Record) -> Option<&'static Row>
    ensures { row_in result ≡ row_of r.now }
{
    first_of(rows_from(&TABLE, first_row(r.kind)), r)
}

/// Record n with its row, or cause 4.
pub(crate) fn shape_of(n: u16, r: &Record) -> Result<Shaped<'_>, Refusal>
    ensures right { IfOk result (λ shaped. shaped.record.now ≡ r.entry.now) }
    ensures wrong { IfErr result (λ e. (fits r.entry.now (row_of r.entry.now) ≡ false) × (e ≡ record { cause = causes.Shape; place = n })) }
{
    match row_of(r) {
        Some(row) if row.fits(r) => Ok(Shaped { record: r, row }),
        _ => Err(Refusal {
            cause: Cause::Shape,
            place: n,
        }),
    }
}

/// Whether a record is a primitive type with nothing in its fields: it is well shaped by the first row. The kind by its
/// code, as in `Row::takes`.
pub(crate) fn is_primitive(r: &Record) -> bool
    ensures { result ≡ is_plain r.now }
{
    r.kind == Kind::Primitive.code()
        && r.sub <= LAST_PRIMITIVE
        && r.a == 0
        && r.b == 0
        && r.c == 0
        && r.v == 0
}
