//! Encodings of fields: what their annotations say, and what a message's delta makes of it.

ghost use Rattle.std.specs.Prelude.{◌≡◌, get_or};
ghost use Rattle.bodies.specs.Encoding.{delta_rows, not_eligible, encoding_number, encoding_record};
ghost use Rattle.bodies.specs.Code as code;
ghost use Rattle.bodies.specs.Annotated.{no_annotations, encoding_of, inner_of, inner_at, under_root};
ghost use Rattle.bodies.specs.Annotated.{argument_from, is_number};
ghost use Rattle.bodies.specs.Annotated.{field_encoding_of, annotation_from, with_annotation, with_argument, encoded};

use book::Book;
use record::kind::Kind;
use record::{Record, reference};

/// How a field is encoded, delta apart.
#[derive(Clone, Copy, Debug, PartialEq, Eq, Hash)]
pub(crate) enum Encoding {
    Default = 0,
    Varint = 1,
    Zigzag = 2,
}

impl Encoding {
    /// The number of the encoding.
    #[tactic(auto, unfolding(crate::specs::Encoding::encoding_number, crate::specs::Annotated::encoding_of))]
    pub(crate) fn number(self) -> u8
        ensures { result ≡ encoding_number (encoding_of self) }
    {
        self as u8
    }
}

/// What a message's delta does with a field: nothing, or delta over the encoding that the field had, or over another.
#[derive(Clone, Copy)]
pub(crate) enum Inner {
    NotEligible,
    HadBefore,
    Over(Encoding),
}

/// The encoding of a field, whether delta is around it, and its limit, if it has one.
#[derive(Clone, Copy)]
pub(crate) struct FieldEncoding {
    pub(crate) encoding: Encoding,
    pub(crate) delta: bool,
    pub(crate) limit: Option<u64>,
}

/// What an annotation says.
#[derive(Clone, Copy, PartialEq, Eq)]
pub(crate) enum Annotation {
    Varint,
    Zigzag,
    Delta,
    Limit,
    Other,
}

impl From<u8> for Annotation {
    ghost from_gives = { λ sub annotation. annotation ≡ annotation_from sub };

    fn from(sub: u8) -> Self {
        match sub {
            0 => Annotation::Varint,
            1 => Annotation::Zigzag,
            2 => Annotation::Delta,
            3 => Annotation::Limit,
            _ => Annotation::Other,
        }
    }
}

/// What the value of an argument is.
#[derive(Clone, Copy)]
pub(crate) enum Argument {
    Int,
    Hex,
    Other,
}

impl From<u8> for Argument {
    ghost from_gives = { λ sub argument. argument ≡ argument_from sub };

    fn from(sub: u8) -> Self {
        match sub {
            0 => Argument::Int,
            1 => Argument::Hex,
            _ => Argument::Other,
        }
    }
}

impl Argument {
    fn is_number(self) -> bool
        ensures { result ≡ is_number self }
    {
        matches!(self, Argument::Int | Argument::Hex)
    }
}

/// What was seen of the annotations of a field or a message: which there are, whether the latest is a limit, and the
/// limit, if it was found.
#[derive(Clone, Copy)]
pub(crate) struct Annotations {
    pub(crate) varint: bool,
    pub(crate) zigzag: bool,
    pub(crate) delta: bool,
    pub(crate) limiting: bool,
    pub(crate) limit: Option<u64>,
}

/// Under a message's delta, by primitive code.
#[rattlefmt::skip]
const DELTA: [Inner; 14] = [
    Inner::NotEligible,            // Bool
    Inner::Over(Encoding::Varint), // U8
    Inner::Over(Encoding::Varint), // U16
    Inner::Over(Encoding::Varint), // U32
    Inner::Over(Encoding::Varint), // U64
    Inner::Over(Encoding::Zigzag), // I8
    Inner::Over(Encoding::Zigzag), // I16
    Inner::Over(Encoding::Zigzag), // I32
    Inner::Over(Encoding::Zigzag), // I64
    Inner::HadBefore,              // F32
    Inner::HadBefore,              // F64
    Inner::HadBefore,              // Fixed32
    Inner::HadBefore,              // Fixed64
    Inner::NotEligible,            // Void
];

/// What a message's delta does with a field of a primitive type.
#[tactic(auto, using(crate::proofs::Rows::rows))]
fn primitive_inner(code: u8) -> Inner
    ensures { inner_of result ≡ get_or delta_rows code not_eligible }
{
    DELTA
        .get(usize::from(code))
        .copied()
        .unwrap_or(Inner::NotEligible)
}

/// What a message's delta does with a field whose type has this root.
fn delta_inner(root: Option<Record>) -> Inner
    ensures { inner_of result ≡ inner_at root }
{
    let Some(root) = root else {
        return Inner::NotEligible;
    };
    match root.kind() {
        Ok(Kind::Primitive) => primitive_inner(root.sub),
        Ok(Kind::SubByte) => Inner::HadBefore,
        _ => Inner::NotEligible,
    }
}

impl Annotations {
    /// No annotation.
    pub(crate) const NONE: Annotations = Annotations {
        varint: false,
        zigzag: false,
        delta: false,
        limiting: false,
        limit: None,
    };

    /// One annotation more.
    pub(crate) fn add_annotation(&mut self, annotation: Annotation)
        ensures { self.new ≡ with_annotation self.old annotation }
    {
        self.limiting = annotation == Annotation::Limit;
        match annotation {
            Annotation::Varint => self.varint = true,
            Annotation::Zigzag => self.zigzag = true,
            Annotation::Delta => self.delta = true,
            Annotation::Limit | Annotation::Other => {}
        }
    }

    /// One argument more: the first number without a key in a limit is the limit.
    pub(crate) fn add_argument(&mut self, argument: &Record)
        ensures { self.new ≡ with_argument self.old argument.now }
    {
        let number = Argument::from(argument.sub).is_number();
        let key = reference(argument.a);
        if self.limiting && self.limit.is_none() && number && key.is_none() {
            self.limit = Some(argument.v);
        }
    }

    /// The encoding that they say. Varint wins over zigzag.
    pub(crate) fn encoding(&self) -> FieldEncoding
        ensures { result ≡ encoded self.now }
    {
        let encoding = if self.varint {
            Encoding::Varint
        } else if self.zigzag {
            Encoding::Zigzag
        } else {
            Encoding::Default
        };
        FieldEncoding {
            encoding,
            delta: self.delta,
            limit: self.limit,
        }
    }
}

impl FieldEncoding {
    /// The encoding under a message's delta, if the message has it and the field is not delta yet. The field's type has
    /// this root.
    #[tactic(auto, unfolding(crate::specs::Encoding::under_inner))]
    pub(crate) fn under_delta(self, delta: bool, root: Option<Record>) -> FieldEncoding
        ensures { field_encoding_of result ≡ under_root delta root (field_encoding_of self) }
    {
        if !delta || self.delta {
            return self;
        }
        let encoding = match delta_inner(root) {
            Inner::NotEligible => return self,
            Inner::HadBefore => self.encoding,
            Inner::Over(base) => base,
        };
        FieldEncoding {
            encoding,
            delta: true,
            limit: self.limit,
        }
    }

    /// The result record of the encoding.
    #[tactic(auto, using(crate::proofs::Rows::rows))]
    pub(crate) fn record(self) -> Record
        ensures { result ≡ encoding_record (field_encoding_of self) }
    {
        let number = self.encoding.number();
        let delta = u16::from(self.delta);
        match self.limit {
            Some(limit) => Record::bare(Kind::Encoding, number, delta, 1, limit),
            None => Record::bare(Kind::Encoding, number, delta, 0, 0),
        }
    }
}

/// What the annotations of a field or a message say of encodings: those behind it, whose record numbers are given.
#[tactic(auto, using(crate::proofs::Behind::behind))]
pub(crate) fn annotations_of(book: &Book<'_>, behind: &[u16]) -> Annotations
    ensures { result ≡ code.seen_behind book.now behind.now no_annotations }
{
    let mut seen = Annotations::NONE;
    for m in behind {
        match book.kind(*m) {
            Ok(Kind::Annotation) => {
                let annotation = Annotation::from(book.record(*m).sub);
                seen.add_annotation(annotation);
            }
            Ok(Kind::Argument) => seen.add_argument(&book.record(*m)),
            Ok(Kind::TypeParameter | Kind::TombstoneArgument) => {}
            _ => return seen,
        }
    }
    seen
}
