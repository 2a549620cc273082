//! A look at the whole book.
ghost use Rattle.std.specs.Prelude.{◌≡◌};
ghost use Rattle.cell_shared.specs.Growing.{counted, Knows};
ghost use Rattle.cell_shared.specs.Quieting.{Finds};

use crate::desk::{Change, release, take};
use crate::shared::{Pass, SharedBook};
use cell_book::{Book, CellLaw, Totals};
use seq_values::CellId;
use std::marker::Brand;
use std::sync::Wait;

/// What a look at the whole book finds: the first of `Spent`, `GaveUp`, `Claimed`, `OpenFuture` that holds, else the totals.
#[derive(Clone, Copy, Debug, PartialEq, Eq)]
pub enum Quiet {
    /// No claim is open, and no future is empty.
    Totals(Totals),
    /// The open claim with the lowest number.
    Claimed(u128),
    /// The empty future with the lowest number.
    OpenFuture(CellId),
    /// A make was refused for the limit.
    Spent,
    /// A work was given up.
    GaveUp,
}

/// What there is to find in a book.
#[tactic(auto, using(crate::proofs::Quieting::finds_claim, crate::proofs::Quieting::finds_future, crate::proofs::Quieting::finds_totals))]
fn found(book: &mut Book) -> Quiet
    ensures same { book.new ≡ book.old }
    ensures found { Finds book.old result }
{
    if book.is_spent() {
        return Quiet::Spent;
    }
    if book.has_given_up() {
        return Quiet::GaveUp;
    }
    if let Some(claim) = book.open_claim() {
        return Quiet::Claimed(claim);
    }
    match book.open_future() {
        Some(id) => Quiet::OpenFuture(id),
        None => Quiet::Totals(book.totals()),
    }
}

impl<L: CellLaw> SharedBook<L> {
    /// Looks at the whole book in one step. It takes no memory. After `Totals` the pass has seen the book at rest: a leading pass then knows the whole book until it begins a form.
    pub fn quiet_view<R: Wait>(&self, rt: &R, pass: &mut Pass) -> Quiet
        requires table { pass.old.table ≡ self.now.table }
        ensures step { Knows pass.old.leads (L.keeps self.now.law) pass.old.seen (counted pass.old.claims) pass.new.seen }
        ensures found { Finds pass.new.seen result }
        ensures held { pass.new.claims ≡ pass.old.claims }
        ensures table { (pass.new.table ≡ pass.old.table) × (pass.new.leads ≡ pass.old.leads) }
    {
        let desk = &self.table.shared;
        let mut book = take::<L, Brand, R>(desk, rt, &mut pass.chair);
        let answer = found(&mut book);
        release::<L, Brand>(desk, &mut pass.chair, book, Change::Keeps);
        answer
    }
}
