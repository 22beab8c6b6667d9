//! What a record is, by its first byte.

ghost use Rattle.std.specs.Prelude.{◌≡◌};
ghost use Rattle.record.specs.Kind.{Decodes, code_of, is_declaration_kind, is_item_kind};

/// The kinds of records: types, constant expressions, constraints and operands (1 to 16), declarations (20 to 25), what
/// stands under them (30 to 36), and what a lowering writes and tells (40 to 50).
#[derive(Clone, Copy, Debug, PartialEq, Eq, Hash)]
pub enum Kind {
    Primitive = 1,
    SubByte = 2,
    Semantic = 3,
    Named = 4,
    Qualified = 5,
    Generic = 6,
    OverOne = 7,
    OverTwo = 8,
    InlineBits = 9,
    Literal = 10,
    Reference = 11,
    Operation = 12,
    Logic = 13,
    Comparison = 14,
    Range = 15,
    Operand = 16,
    Message = 20,
    Union = 21,
    Newtype = 22,
    Alias = 23,
    Constant = 24,
    Ambiguous = 25,
    TypeParameter = 30,
    Field = 31,
    Tombstone = 32,
    Variant = 33,
    Annotation = 34,
    Argument = 35,
    TombstoneArgument = 36,
    LoweredAlias = 40,
    LoweredConstant = 41,
    LoweredMessage = 42,
    LoweredUnion = 43,
    LoweredVariant = 44,
    LoweredField = 45,
    Encoding = 46,
    LoweredTombstone = 47,
    LoweredNewtype = 48,
    Diagnostic = 50,
}

/// A byte that stands for no kind.
#[derive(Clone, Copy, Debug, PartialEq, Eq, Hash)]
pub struct UnknownKind(pub u8);

impl Kind {
    /// The byte that stands for the kind.
    pub fn code(self) -> u8
        ensures { result ≡ code_of self }
    {
        self as u8
    }

    /// Whether it declares a name.
    pub fn is_declaration(self) -> bool
        ensures { result ≡ is_declaration_kind self }
    {
        matches!(
            self,
            Kind::Message
                | Kind::Union
                | Kind::Newtype
                | Kind::Alias
                | Kind::Constant
                | Kind::Ambiguous
        )
    }

    /// Whether it stands under a declaration.
    pub fn is_item(self) -> bool
        ensures { result ≡ is_item_kind self }
    {
        matches!(
            self,
            Kind::TypeParameter
                | Kind::Field
                | Kind::Tombstone
                | Kind::Variant
                | Kind::Annotation
                | Kind::Argument
                | Kind::TombstoneArgument
        )
    }
}

impl TryFrom<u8> for Kind {
    type Error = UnknownKind;

    ghost try_from_gives = { Decodes };

    #[inline(always)]
    #[tactic(auto, unfolding(crate::specs::Kind::kind_from))]
    fn try_from(code: u8) -> Result<Self, UnknownKind> {
        match code {
            1 => Ok(Kind::Primitive),
            2 => Ok(Kind::SubByte),
            3 => Ok(Kind::Semantic),
            4 => Ok(Kind::Named),
            5 => Ok(Kind::Qualified),
            6 => Ok(Kind::Generic),
            7 => Ok(Kind::OverOne),
            8 => Ok(Kind::OverTwo),
            9 => Ok(Kind::InlineBits),
            10 => Ok(Kind::Literal),
            11 => Ok(Kind::Reference),
            12 => Ok(Kind::Operation),
            13 => Ok(Kind::Logic),
            14 => Ok(Kind::Comparison),
            15 => Ok(Kind::Range),
            16 => Ok(Kind::Operand),
            20 => Ok(Kind::Message),
            21 => Ok(Kind::Union),
            22 => Ok(Kind::Newtype),
            23 => Ok(Kind::Alias),
            24 => Ok(Kind::Constant),
            25 => Ok(Kind::Ambiguous),
            30 => Ok(Kind::TypeParameter),
            31 => Ok(Kind::Field),
            32 => Ok(Kind::Tombstone),
            33 => Ok(Kind::Variant),
            34 => Ok(Kind::Annotation),
            35 => Ok(Kind::Argument),
            36 => Ok(Kind::TombstoneArgument),
            40 => Ok(Kind::LoweredAlias),
            41 => Ok(Kind::LoweredConstant),
            42 => Ok(Kind::LoweredMessage),
            43 => Ok(Kind::LoweredUnion),
            44 => Ok(Kind::LoweredVariant),
            45 => Ok(Kind::LoweredField),
            46 => Ok(Kind::Encoding),
            47 => Ok(Kind::LoweredTombstone),
            48 => Ok(Kind::LoweredNewtype),
            50 => Ok(Kind::Diagnostic),
            _ => Err(UnknownKind(code)),
        }
    }
}
