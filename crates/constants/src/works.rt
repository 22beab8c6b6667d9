//! The order of constants: always the earliest reached one whose declared references are done.

ghost use Rattle.std.specs.Prelude.{◌≡◌, ◌-◌, ◌<◌, false, length, get_or, set, slice_get, IfSome};
ghost use Rattle.book.specs.Outline.{◌!◌};
ghost use Rattle.constants.specs.Tree.{tree};
ghost use Rattle.constants.specs.Steps.{state_of, started, turn_at, put_turn, opened, opened_all, see, looked, named_then, listed, names_undone};
ghost use Rattle.constants.specs.Steps.{admitted, admitted_from, named_at, stops, next_stop, next_undone, next_of, still_waits, looked_on, looked_at, ready_from, next_low, run, settled, settled_all};

use crate::reached::{Order, Settled, Values};
use crate::tree::{Node, eval_const_expr, take_apart};
use arrayvec::ArrayVec;
use book::by_name;
use book::readable::Book;
use record::kind::Kind;

/// A name that a constant names, and the record of that constant.
#[derive(Clone, Copy)]
pub(crate) struct Named {
    pub name: u16,
    pub by: u16,
}

/// What a constant waits for.
#[derive(Clone, Copy, Default)]
pub(crate) enum Waits {
    /// To be admitted: it was not yet, or it names a declared constant twice.
    #[default]
    NotAdmitted,
    /// For nothing: it is done.
    Done,
    /// For the names that it names, listed from this place on, if any of them is undone.
    Names(u16),
    /// For a name that was undone, listed at this place, and for those behind it. The name is kept so that a look at a
    /// constant that still waits is short.
    Name(u16, u16),
}

impl Waits {
    // From which place on the names are listed that an admitted constant which is not done may wait for.
    fn next(self) -> Option<u16>
        ensures { result ≡ next_of self }
    {
        match self {
            Waits::Names(next) | Waits::Name(_, next) => Some(next),
            Waits::NotAdmitted | Waits::Done => None,
        }
    }
}

/// A declared constant: its record, and what it waits for.
#[derive(Clone, Copy, Default)]
pub(crate) struct Turn {
    pub place: u16,
    pub waits: Waits,
}

// What stands where no name is listed.
const NOBODY: Named = Named { name: 0, by: 0 };

/// The constants of a book in book order, and what is known of them and of names below `N`. That no step changes how
/// many constants are listed is said apart, where it does not follow without the step's definition.
#[derive(Drop)]
pub(crate) struct Works<const N: usize, const R: usize> {
    /// The names of declared constants that are not done. Apart from `seen`, since looks at constants that wait read
    /// these alone.
    undone: [bool; N],
    /// Which constant named a name last, by its record: 0 for none, since no constant is record 0. An `Option` would be
    /// no plainer, and takes twice the room, all of which is cleared for each book.
    seen: [u16; N],
    turns: ArrayVec<Turn, R>,
    /// What the constants name, one behind the other, and behind the last one. An `ArrayVec` would be no plainer: its
    /// length would have to be made a `u16` at each name, as places in a `Turn` are.
    named: [Named; R],
    end: u16,
}

// Where to look on, when constant i is done and all before `low` are.
fn behind(i: usize, low: usize) -> usize
    requires { i < usize.MAX }
    ensures { result ≡ next_low i low }
{
    if i == low { i + 1 } else { low }
}

impl<const N: usize, const R: usize> Works<N, R> {
    pub(crate) fn new() -> Self
        ensures { state_of result ≡ started N R }
    {
        Works {
            undone: [false; N],
            seen: [0; N],
            turns: ArrayVec::new(),
            named: [NOBODY; R],
            end: 0,
        }
    }

    fn is_undone(&self, name: u16) -> bool
        ensures { result ≡ get_or self.now.undone name false }
    {
        self.undone.get(usize::from(name)).copied().unwrap_or(false)
    }

    fn mark(&mut self, name: u16, undone: bool)
        ensures { state_of self.new ≡ record (state_of self.old) { undone = set self.old.undone name undone } }
    {
        by_name::put(&mut self.undone, name, undone);
    }

    fn turn(&self, i: usize) -> Option<Turn>
        ensures { result ≡ turn_at i (state_of self.now) }
    {
        self.turns.get(i).copied()
    }

    fn put_turn(&mut self, i: usize, turn: Turn)
        ensures state { state_of self.new ≡ put_turn i turn (state_of self.old) }
        ensures long { length self.new.turns.items ≡ length self.old.turns.items }
    {
        if let Some(here) = self.turns.get_mut(i) {
            *here = turn;
        }
    }

    fn named_at(&self, j: u16) -> Named
        ensures { result ≡ named_at j (state_of self.now) }
    {
        self.named.get(usize::from(j)).copied().unwrap_or(NOBODY)
    }

    // Lists a constant, and opens its name.
    #[tactic(auto, unfolding(crate::specs::Steps::opened, crate::specs::Given::pushed))]
    fn open(&mut self, book: &Book<'_>, n: u16)
        ensures { state_of self.new ≡ opened R book.now n (state_of self.old) }
    {
        let r = book.record(n);
        if let Ok(Kind::Constant) = r.kind() {
            if !self.turns.is_full() {
                self.turns.push(Turn {
                    place: n,
                    waits: Waits::NotAdmitted,
                });
            }
            self.mark(r.a, true);
        }
    }

    /// Lists the constants among the declarations of a book, and opens their names.
    #[tactic(auto, using(crate::proofs::Steps::opens))]
    pub(crate) fn open_all(&mut self, book: &Book<'_>, declarations: &[u16])
        ensures { state_of self.new ≡ opened_all R book.now declarations.now (state_of self.old) }
    {
        for n in declarations {
            self.open(book, *n);
        }
    }

    // Whether an undone name was seen by this constant. It is then.
    #[tactic(auto, unfolding(crate::specs::Steps::see))]
    fn see(&mut self, name: u16, stamp: u16) -> bool
        ensures again { result ≡ (see stamp name (state_of self.old)).again }
        ensures state { state_of self.new ≡ (see stamp name (state_of self.old)).state }
    {
        let n = usize::from(name);
        if n >= N || !self.undone[n] {
            return false;
        }
        let again = self.seen[n] == stamp;
        self.seen[n] = stamp;
        again
    }

    // This and the next two walk down an expression each for itself: one walk that takes what to do as a closure would
    // have the closure's contract in place of each of theirs.
    //
    // Whether the expression at record n names an undone name twice, or one that this constant named before. All of
    // them are seen then. What stands to the right comes first.
    fn names_twice(&mut self, book: &Book<'_>, n: u16, stamp: u16) -> bool
        ensures again { result ≡ (looked stamp (tree book.now n) (state_of self.old)).again }
        ensures state { state_of self.new ≡ (looked stamp (tree book.now n) (state_of self.old)).state }
    {
        match take_apart(book, n) {
            Node::Name(name) => self.see(name, stamp),
            Node::Sides(_, left, right) => {
                let there = self.names_twice(book, right, stamp);
                let here = self.names_twice(book, left, stamp);
                here | there
            }
            Node::Value(..) | Node::Other => false,
        }
    }

    #[tactic(auto, unfolding(crate::specs::Steps::named_then))]
    fn put_name(&mut self, name: u16, by: u16)
        ensures { state_of self.new ≡ named_then by name (state_of self.old) }
    {
        let at = usize::from(self.end);
        // The end stays a `u16`; no book has as many names.
        if at < R && self.end < u16::MAX {
            self.named[at] = Named { name, by };
            self.end += 1;
        }
    }

    // Lists what the expression at record n names, as far as there is room: the expression of a constant, which is
    // given by its record.
    fn list_names(&mut self, book: &Book<'_>, n: u16, by: u16)
        ensures { state_of self.new ≡ listed by (tree book.now n) (state_of self.old) }
    {
        match take_apart(book, n) {
            Node::Name(name) => self.put_name(name, by),
            Node::Sides(_, left, right) => {
                self.list_names(book, left, by);
                self.list_names(book, right, by);
            }
            Node::Value(..) | Node::Other => {}
        }
    }

    // Whether the expression at record n names an undone name.
    fn names_undone(&self, book: &Book<'_>, n: u16) -> bool
        ensures { result ≡ names_undone self.now.undone (tree book.now n) }
    {
        match take_apart(book, n) {
            Node::Name(name) => self.is_undone(name),
            Node::Sides(_, left, right) => {
                self.names_undone(book, left) || self.names_undone(book, right)
            }
            Node::Value(..) | Node::Other => false,
        }
    }

    // Lists what constant i names, as what it waits for, unless it names a declared constant twice.
    #[tactic(auto, unfolding(crate::specs::Steps::admitted))]
    fn admit(&mut self, book: &Book<'_>, i: usize)
        ensures { state_of self.new ≡ admitted book.now i (state_of self.old) }
    {
        let Some(turn) = self.turn(i) else {
            return;
        };
        let place = turn.place;
        let expr = book.record(place).c;
        if self.names_twice(book, expr, place) {
            return;
        }
        let next = self.end;
        self.list_names(book, expr, place);
        self.put_turn(
            i,
            Turn {
                place,
                waits: Waits::Names(next),
            },
        );
    }

    /// Finds out what each constant waits for.
    #[tactic(auto, using(crate::proofs::Steps::admits))]
    pub(crate) fn admit_all(&mut self, book: &Book<'_>)
        ensures { state_of self.new ≡ admitted_from book.now (length self.old.turns.items) 0 (state_of self.old) }
    {
        for i in 0..self.turns.len() {
            self.admit(book, i);
        }
    }

    // The first place from `next` on where an undone name is listed, or a name that another constant names.
    fn next_stop(&self, place: u16, next: u16) -> Option<u16>
        ensures { result ≡ next_stop place next (state_of self.now) }
    {
        (next..self.end).find(
            |j| -> bool
                ensures { result ≡ stops place (state_of self.entry.now) j.now }
            {
                let named = self.named_at(*j);
                named.by != place || self.is_undone(named.name)
            },
        )
    }

    // Where the next undone name is listed that the constant at a record names.
    fn next_undone(&self, place: u16, next: u16) -> Option<u16>
        ensures { result ≡ next_undone place next (state_of self.now) }
    {
        let stop = self.next_stop(place, next)?;
        if self.named_at(stop).by == place {
            Some(stop)
        } else {
            None
        }
    }

    // Whether constant i waits still, for what never comes or for a name that is undone.
    #[tactic(auto, using(crate::proofs::Kept::reads))]
    fn still_waits(&self, i: usize) -> bool
        requires { i < length self.now.turns.items }
        ensures { result ≡ still_waits (turn_at i (state_of self.now)) (state_of self.now) }
    {
        match self.turns[i].waits {
            Waits::NotAdmitted | Waits::Done => true,
            Waits::Names(_) => false,
            Waits::Name(name, _) => self.is_undone(name),
        }
    }

    // Whether constant i is ready. If not, it waits for an undone name from now on. Where there was no room to list all
    // that it names, its expression says so.
    #[tactic(auto, unfolding(crate::specs::Steps::looked_on))]
    fn look_on(&mut self, book: &Book<'_>, i: usize) -> bool
        ensures ready { result ≡ (looked_on book.now i (state_of self.old)).ready }
        ensures state { state_of self.new ≡ (looked_on book.now i (state_of self.old)).state }
        ensures long { length self.new.turns.items ≡ length self.old.turns.items }
    {
        let Some(turn) = self.turn(i) else {
            return false;
        };
        let Some(next) = turn.waits.next() else {
            return false;
        };
        let Some(at) = self.next_undone(turn.place, next) else {
            return !self.names_undone(book, book.record(turn.place).c);
        };
        let waits = Waits::Name(self.named_at(at).name, at);
        self.put_turn(
            i,
            Turn {
                place: turn.place,
                waits,
            },
        );
        false
    }

    // The same, with the short look before it: most looks are at constants that wait still.
    #[tactic(auto, unfolding(crate::specs::Steps::looked_at))]
    fn is_ready(&mut self, book: &Book<'_>, i: usize) -> bool
        requires { i < length self.old.turns.items }
        ensures ready { result ≡ (looked_at book.now i (state_of self.old)).ready }
        ensures state { state_of self.new ≡ (looked_at book.now i (state_of self.old)).state }
        ensures long { length self.new.turns.items ≡ length self.old.turns.items }
    {
        !self.still_waits(i) && self.look_on(book, i)
    }

    /// The earliest ready constant from `low` on, by its number. It is not inlined, so that its loop has registers of
    /// its own: inlined, 448 constants that each name the one behind took 580,000 instructions more; an ordinary book
    /// pays some 40 for each constant.
    #[tactic(auto, using(crate::proofs::Steps::readies))]
    #[inline(never)]
    fn first_ready(&mut self, book: &Book<'_>, low: usize) -> Option<usize>
        ensures number { result ≡ (ready_from book.now (length self.old.turns.items - low) low (state_of self.old)).number }
        ensures state { state_of self.new ≡ (ready_from book.now (length self.old.turns.items - low) low (state_of self.old)).state }
        ensures few { IfSome result (λ i. i < R) }
    {
        for i in low..self.turns.len() {
            if self.is_ready(book, i) {
                return Some(i);
            }
        }
        None
    }

    // Settles constant i: its value is stored, and comes last in the order.
    #[tactic(auto, using(crate::proofs::Kept::answers), unfolding(crate::specs::Steps::settled))]
    fn settle<const M: usize>(
        &mut self,
        book: &Book<'_>,
        i: usize,
        values: &mut Values<N>,
        order: &mut Order<M>,
    )
        ensures works { state_of self.new ≡ (settled M book.now i (run (state_of self.old) values.old.values order.old)).works }
        ensures values { values.new.values ≡ (settled M book.now i (run (state_of self.old) values.old.values order.old)).values }
        ensures order { order.new ≡ (settled M book.now i (run (state_of self.old) values.old.values order.old)).order }
    {
        let Some(turn) = self.turn(i) else {
            return;
        };
        let place = turn.place;
        let constant = book.record(place);
        let value = eval_const_expr(book, constant.c, values);
        if let Some(z) = value {
            values.store(constant.a, z);
        }
        order.push(Settled { place, value });
        self.mark(constant.a, false);
        self.put_turn(
            i,
            Turn {
                place,
                waits: Waits::Done,
            },
        );
    }

    /// Settles the constants, always the earliest ready one.
    #[tactic(auto, using(crate::proofs::Steps::settles))]
    pub(crate) fn settle_all<const M: usize>(
        &mut self,
        book: &Book<'_>,
        values: &mut Values<N>,
        order: &mut Order<M>,
    )
        ensures works { state_of self.new ≡ (settled_all M book.now (run (state_of self.old) values.old.values order.old)).works }
        ensures values { values.new.values ≡ (settled_all M book.now (run (state_of self.old) values.old.values order.old)).values }
        ensures order { order.new ≡ (settled_all M book.now (run (state_of self.old) values.old.values order.old)).order }
    {
        let mut low = 0;
        for _turn in 0..self.turns.len() {
            let Some(i) = self.first_ready(book, low) else {
                return;
            };
            self.settle(book, i, values, order);
            low = behind(i, low);
        }
    }
}
