//! What a pass knows, the rule of a shared book, and what each step on it tells.
use atomic_table::{Join, Play, Split, TableRule};
use cell_book::{Book, CellLaw};
use std::collections::LinkedList;
use std::marker::{Brand, PhantomData};

// What a pass knows. No value of it is made.
pub struct View {
    // It may begin forms.
    pub leads: bool,
    pub seen: Book,
    pub claims: LinkedList<u128>,
    // How many books were at home before the one that it has seen.
    pub at: u64,
    // The book that was at home as it took its turn.
    pub noted: Option<Book>,
    // Of a pass that it took in: the shorter of what the two had seen.
    pub other: Book,
    pub other_at: u64,
    // The claims of the one that had seen that.
    pub other_claims: LinkedList<u128>,
    // Another pass has taken it in.
    pub gone: bool,
}

/// What a table is told when it is made.
#[derive(Drop)]
pub struct Start<L> {
    pub law: L,
    pub limit: u32,
}

/// The rule of a shared book.
pub(crate) struct InTurn;

impl<L: CellLaw> TableRule<Option<Book>, View, Start<L>> for InTurn {
    ghost use Rattle.std.specs.Prelude.{true, []};
    ghost use Rattle.cell_shared.specs.Growing.{fresh};
    ghost use Rattle.cell_shared.specs.Turning.{Kept, resting};

    ghost holds = { λ k. Kept (L.keeps k.law) };

    ghost first = { λ k. resting true (fresh k.limit) [] 0 };
}

/// A predicate that a call picks.
pub trait Meets {
    ghost use Rattle.cell_book.specs.Account.{Account};

    ghost meets: { Account → Type 0 };
}

impl Meets for Brand {
    ghost meets = { λ _. Unit {0} };
}

/// The open claims that a call leaves.
pub trait Leaves {
    ghost use Rattle.std.specs.Prelude.{ℕ, List};

    ghost claims: { List ℕ };
}

impl Leaves for Brand {
    ghost use Rattle.std.specs.Prelude.{[]};

    ghost claims = { [] };
}

/// The turn is taken, and with it the book.
pub(crate) struct Takes<M> {
    meets: PhantomData<M>,
}

impl<M: Meets> Play<Option<Book>, View> for Takes<M> {
    ghost use Rattle.cell_shared.specs.Turning.{takes};

    ghost then = { takes M.meets };
}

/// The book is given back, and the turn.
pub(crate) struct Releases<E> {
    leaves: PhantomData<E>,
}

impl<E: Leaves> Play<Option<Book>, View> for Releases<E> {
    ghost use Rattle.cell_shared.specs.Turning.{releases};

    ghost then = { releases E.claims };
}

/// Of what two passes had seen, one grows to the other.
pub(crate) struct Settles;

impl Play<Option<Book>, View> for Settles {
    ghost use Rattle.cell_shared.specs.Turning.{settles};

    ghost then = { settles };
}

/// A pass that has seen as much, and has nothing open.
pub(crate) struct Halves;

impl Split<View> for Halves {
    ghost use Rattle.std.specs.Prelude.{false, []};
    ghost use Rattle.cell_shared.specs.Turning.{resting};

    ghost left = { λ v. v };

    ghost right = { λ v. resting false v.seen [] v.at };
}

/// Two passes in one.
pub(crate) struct Whole;

impl Join<View> for Whole {
    ghost use Rattle.cell_shared.specs.Turning.{both, spent};

    ghost both = { both };

    ghost spent = { spent };
}
