//! What an evaluation is given and leaves: the values of names, and the reached constants in their order.

ghost use Rattle.std.specs.Prelude.{◌≡◌, ℕ, [], get_or, set, Some, None};
ghost use Rattle.std.proofs.Math.Option.{none};
ghost use Rattle.constants.specs.Given.{table_in, pushed};

use book::by_name;
use std::marker::Model;

/// The values of names below `N`: each has one or none.
#[derive(Drop)]
pub struct Values<const N: usize> {
    values: [Option<i64>; N],
}

impl<const N: usize> Values<N> {
    /// No name has a value.
    #[tactic(auto, using(crate::proofs::Kept::none_before))]
    pub fn none() -> Self
        ensures { (n : ℕ) → table_in result.values n ≡ none }
    {
        Values { values: [None; N] }
    }

    /// The value of a name, if it has one.
    pub fn of(&self, name: u16) -> Option<i64>
        ensures { result ≡ get_or self.now.values name None }
    {
        self.values.get(usize::from(name)).copied().flatten()
    }

    /// A name has a value from now on.
    pub fn store(&mut self, name: u16, value: i64)
        ensures { self.new.values ≡ set self.old.values name (Some value) }
    {
        by_name::put(&mut self.values, name, Some(value));
    }
}

/// A reached constant: its record number, and its value if it has one.
#[derive(Clone, Copy)]
pub struct Settled {
    pub place: u16,
    pub value: Option<i64>,
}

/// At most `R` reached constants, in their order. An `ArrayVec` of so many is filled one by one and then moved, which
/// costs a book of 64 blocks 10,000 instructions and 32 KB of stack.
#[derive(Drop)]
pub struct Order<const R: usize> {
    settled: [Settled; R],
    count: usize,
}

impl<const R: usize> Model for Order<R> {
    ghost use Rattle.std.specs.Prelude.{◌≤◌, List, length, take};
    ghost use Rattle.constants.specs.declared.reached.Settled.{Settled};

    ghost Value = { List Settled };

    ghost view = { λ o. take o.count o.settled };

    ghost invariant = { λ o. o.count ≤ length o.settled };
}

impl<const R: usize> Order<R> {
    /// None is reached.
    pub fn none() -> Self
        ensures { result ≡ [] }
    {
        Order {
            settled: [Settled {
                place: 0,
                value: None,
            }; R],
            count: 0,
        }
    }

    /// The reached constants.
    pub fn settled(&self) -> &[Settled]
        ensures { result.now ≡ self.now }
    {
        &self.settled[..self.count]
    }

    /// One more is reached, where there is room for it.
    #[tactic(auto, using(crate::proofs::Kept::pushes))]
    pub(crate) fn push(&mut self, settled: Settled)
        ensures { self.new ≡ pushed R self.old settled }
    {
        if self.count < R {
            self.settled[self.count] = settled;
            self.count += 1;
        }
    }
}
