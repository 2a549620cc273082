//! The lock: the turn is taken, with the book, and given back.
ghost use Rattle.std.specs.Prelude.{◌≡◌, ◌<◌, ℕ, List, false, [], ◌∷◌, Some, None};
ghost use Rattle.cell_book.specs.Account.{Account};
ghost use Rattle.cell_book.specs.Glimpses.{after_open, after_end};
ghost use Rattle.cell_shared.specs.Growing.{counted, Knows};
ghost use Rattle.cell_shared.specs.Known.{after};
ghost use Rattle.cell_shared.specs.Turning.{resting, noting, HasTurn};

use crate::view::{InTurn, Leaves, Meets, Releases, Start, Takes, View};
use atomic_table::{Seat, Shared};
use cell_book::{Book, CellLaw, Work};
use std::sync::Wait;
use std::thread;

/// What a call does to the open claims of its pass.
#[derive(Drop, Clone, Copy)]
pub enum Change {
    Keeps,
    Opens(u128),
    Closes(u128),
}

/// What a book's seats share.
pub(crate) type Desk<L> = Shared<Option<Book>, View, Start<L>, InTurn>;

/// The seat of a pass.
pub(crate) type Chair = Seat<Option<Book>, View>;

/// Takes the turn, and the book out. A failed try yields the processor.
pub(crate) fn take<L: CellLaw, M: Meets, R: Wait>(desk: &Desk<L>, rt: &R, chair: &mut Chair) -> Book
    requires table { (chair.old.table_id ≡ desk.now.table_id) × (desk.now.table_id.words ≡ 1) }
    requires rest { (chair.old.me.1 ≡ []) × (chair.old.me.0.gone ≡ false) }
    requires law { (b : Account) → L.keeps desk.now.key.law b → M.meets b }
    ensures table { (chair.new.table_id ≡ chair.old.table_id) × (chair.new.id ≡ chair.old.id) }
    ensures took { chair.new.me ≡ (noting chair.old.me.0 result, (0, None) ∷ []) }
    ensures knows { Knows chair.old.me.0.leads M.meets chair.old.me.0.seen (counted chair.old.me.0.claims) result }
{
    for _ in rt.forever() {
        if desk.compare_exchange::<Takes<M>>(chair, 0, 0, 1) == 0 {
            let slot = desk.exchange(chair, 0, None);
            let Some(book) = slot else { unreachable!() };
            return book;
        }
        thread::yield_now();
    }
    unreachable!()
}

/// Puts the book back, and gives the turn up.
pub(crate) fn release<L: CellLaw, E: Leaves>(
    desk: &Desk<L>,
    chair: &mut Chair,
    book: Book,
    change: Change,
)
    requires table { (chair.old.table_id ≡ desk.now.table_id) × (desk.now.table_id.words ≡ 1) }
    requires turn { HasTurn (L.keeps desk.now.key.law) chair.old.me book (after change chair.old.me.0.claims) }
    requires leaves { E.claims ≡ after change chair.old.me.0.claims }
    ensures table { (chair.new.table_id ≡ chair.old.table_id) × (chair.new.id ≡ chair.old.id) }
    ensures rests { (at : ℕ) × (chair.new.me ≡ (resting chair.old.me.0.leads book (after change chair.old.me.0.claims) at, [])) }
{
    let _ = change;
    desk.exchange(chair, 0, Some(book));
    desk.store::<Releases<E>>(chair, 0, 0);
}

/// What a call that may open a claim does to the open claims.
pub(crate) fn change_of<E>(answer: &Result<Work, E>) -> Change
    ensures { (claims : List ℕ) (c : ℕ) → counted (after result claims) c ≡ after_open (counted claims) answer.now c }
{
    match answer {
        Ok(work) => Change::Opens(work.claim()),
        Err(_) => Change::Keeps,
    }
}

/// What the end of a work does to the open claims.
pub(crate) fn closing(work: &Work) -> Change
    ensures { (claims : List ℕ) (c : ℕ) → 0 < counted claims work.now.claim → counted (after result claims) c ≡ after_end (counted claims) work.now c }
{
    Change::Closes(work.claim())
}
