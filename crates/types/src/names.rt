//! What is known of names while a book is lowered.

ghost use Rattle.std.specs.Prelude.{◌≤◌, ◌^◌};

use arrayvec::ArrayVec;
use book::by_name;
use record::type_id::TypeId;

/// Where the records of a plain alias's type stand among the results.
#[derive(Clone, Copy, Debug, PartialEq, Eq, Hash)]
pub struct Place {
    pub first: u16,
    pub root: u16,
}

/// A generic alias: the name of its first parameter, and its target.
#[derive(Clone, Copy, Debug, Default, PartialEq, Eq, Hash)]
pub struct Generic {
    pub parameter: u16,
    pub target: u16,
}

/// A stub of a qualified name.
#[derive(Clone, Copy, Debug, PartialEq, Eq, Hash)]
pub struct Pair {
    pub space: u16,
    pub name: u16,
    pub number: TypeId,
}

// By hand, since a number has no default, and a list of fixed room asks for one.
impl Default for Pair {
    ghost use Rattle.std.specs.Prelude.{◌≡◌};
    ghost use Rattle.types.specs.Tables.{no_pair};

    ghost is_default = { λ p. p ≡ no_pair };

    /// Names and number 0.
    fn default() -> Self {
        Pair {
            space: 0,
            name: 0,
            number: TypeId(0),
        }
    }
}

/// What is known of names below `N`, with room for `R` generic aliases and pairs: a book has no more of either than
/// records. Three arrays by name, since each is read and written by itself: one of a struct of the three would be no
/// plainer, and its entries take more room than theirs, all of which is cleared for each book. Pairs are a list that is
/// looked through, since nothing is allocated.
#[derive(Drop)]
pub struct Names<const N: usize, const R: usize> {
    /// Messages, unions and newtypes have the numbers below, generic aliases the ones from there on.
    pub types: u32,
    /// The number that is given next.
    pub next: u32,
    pub numbers: [Option<TypeId>; N],
    pub aliases: [Option<Place>; N],
    pub ambiguous: [bool; N],
    /// By their numbers, from `types` on.
    pub generics: ArrayVec<Generic, R>,
    pub pairs: ArrayVec<Pair, R>,
    ghost few: { (N ≤ 2 ^ 32) × (R ≤ 2 ^ 32) },
}

impl<const N: usize, const R: usize> Names<N, R> {
    ghost use Rattle.std.specs.Prelude.{◌≡◌};
    ghost use Rattle.types.specs.Tables.{tables, number_in, alias_in, is_marked, pair_in, generic_in};
    ghost use Rattle.types.specs.Tables.{stubbed, paired, aliased};
    ghost use Rattle.types.specs.Registry.{nothing_known, marked, with_generic};

    /// With nothing known.
    pub fn new() -> Self
        requires { (N ≤ 2 ^ 32) × (R ≤ 2 ^ 32) }
        ensures { tables N R result ≡ nothing_known N R }
    {
        Names {
            types: 0,
            next: 0,
            numbers: [None; N],
            aliases: [None; N],
            ambiguous: [false; N],
            generics: ArrayVec::new(),
            pairs: ArrayVec::new(),
        }
    }

    // The name's own number.
    pub(crate) fn number_of(&self, name: u16) -> Option<TypeId>
        ensures { result ≡ number_in (tables N R self.now) name }
    {
        self.numbers.get(usize::from(name)).copied().flatten()
    }

    // Where the type of a plain alias stands.
    pub(crate) fn alias_of(&self, name: u16) -> Option<Place>
        ensures { result ≡ alias_in (tables N R self.now) name }
    {
        self.aliases.get(usize::from(name)).copied().flatten()
    }

    // Whether the name is ambiguous between wildcard imports.
    pub(crate) fn is_ambiguous(&self, name: u16) -> bool
        ensures { result ≡ is_marked (tables N R self.now) name }
    {
        self.ambiguous
            .get(usize::from(name))
            .copied()
            .unwrap_or(false)
    }

    // The number of a qualified name.
    pub(crate) fn pair_number(&self, space: u16, name: u16) -> Option<TypeId>
        ensures { result ≡ pair_in (tables N R self.now) space name }
    {
        // The names first, since more of them differ.
        self.pairs
            .iter()
            .find(|pair| pair.name == name && pair.space == space)
            .map(|pair| pair.number)
    }

    // The generic alias with a number, which a result record has in 64 bits.
    pub(crate) fn generic_of(&self, number: u64) -> Option<Generic>
        ensures { result ≡ generic_in (tables N R self.now) number }
    {
        let types = u64::from(self.types);
        if number < types {
            return None;
        }
        self.generics.get((number - types) as usize).copied()
    }

    // Gives the next number to a name.
    pub(crate) fn give_number(&mut self, name: u16)
        ensures { tables N R self.new ≡ stubbed (tables N R self.old) name }
    {
        by_name::put(&mut self.numbers, name, Some(TypeId(self.next)));
        self.next = self.next.saturating_add(1);
    }

    // The name is ambiguous between wildcard imports.
    pub(crate) fn mark_ambiguous(&mut self, name: u16)
        ensures { tables N R self.new ≡ marked (tables N R self.old) name }
    {
        by_name::put(&mut self.ambiguous, name, true);
    }

    // Gives the next number to a generic alias.
    pub(crate) fn add_generic(&mut self, name: u16, generic: Generic)
        ensures { tables N R self.new ≡ with_generic (tables N R self.old) name generic }
    {
        if !self.generics.is_full() {
            self.generics.push(generic);
        }
        self.give_number(name);
    }

    // Gives the next number to a qualified name.
    pub(crate) fn add_pair(&mut self, space: u16, name: u16)
        ensures { tables N R self.new ≡ paired (tables N R self.old) space name }
    {
        if !self.pairs.is_full() {
            self.pairs.push(Pair {
                space,
                name,
                number: TypeId(self.next),
            });
        }
        self.next = self.next.saturating_add(1);
    }

    // A plain alias is lowered.
    pub(crate) fn add_alias(&mut self, name: u16, place: Place)
        ensures { tables N R self.new ≡ aliased (tables N R self.old) name place }
    {
        by_name::put(&mut self.aliases, name, Some(place));
    }
}
