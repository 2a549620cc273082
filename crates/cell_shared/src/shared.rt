//! The shared book and its passes.
ghost use Rattle.std.specs.Prelude.{◌≡◌, ◌⊎◌, ◌<◌, ℕ, false, true, [], ◌∷◌, ◌++◌, Some, IfOk};
ghost use Rattle.cell_shared.specs.Growing.{fresh, counted, Grows};
ghost use Rattle.cell_book.specs.Glimpses.{glimpse, Onward};
ghost use Rattle.cell_shared.specs.Known.{known};

use crate::desk::Chair;
use crate::view::{Halves, InTurn, Settles, Start, View, Whole};
use crate::viewed::Viewed;
use atomic_table::Table;
use cell_book::{Book, CellLaw};
use seq_vector::NoMemory;
use std::alloc::{AllocError, Global};
use std::marker::Model;
use std::sync::Wait;

/// What a thread has seen of a book, and the claims that it has open.
#[derive(Drop)]
pub struct Pass {
    pub(crate) chair: Chair,
}

impl Model for Pass {
    ghost use Rattle.std.specs.Prelude.{◌≡◌, false, [], None};
    ghost use Rattle.cell_shared.specs.Known.{Known, known};
    ghost use Rattle.std.specs.Coded.{codes};
    ghost use Rattle.seq_values.specs.contracts.value.Value as value;

    ghost Value = { Known };

    ghost coded = { Prim.hlevel (codes, value.the_row.coded) };

    ghost view = { λ p. known p.chair.table_id p.chair.me.0.leads p.chair.me.0.seen p.chair.me.0.claims };

    ghost invariant = { λ p. (p.chair.me.1 ≡ []) × (p.chair.me.0.noted ≡ None) × (p.chair.me.0.gone ≡ false) };
}

/// A book that threads share. Between any two steps it keeps its law.
#[derive(Drop)]
pub struct SharedBook<L: CellLaw> {
    pub(crate) table: Table<Option<Book>, View, Start<L>, InTurn, Global>,
}

impl<L: CellLaw> Model for SharedBook<L> {
    ghost use Rattle.std.specs.Prelude.{◌≡◌};
    ghost use Rattle.cell_shared.specs.Known.{Ruled};

    ghost Value = { Ruled L };

    ghost view = { λ s. record { table = s.table.shared.table_id; law = s.table.shared.key.law } };

    ghost invariant = { λ s. s.table.shared.table_id.words ≡ 1 };
}

/// The one slot, with the book in it.
fn slot_of(alloc: Global, book: Book) -> Result<Vec<Option<Book>>, AllocError>
    ensures { IfOk result (λ slots. slots.items ≡ Some book ∷ []) }
{
    let mut slots = Vec::new(alloc);
    slots.push(Some(book))?;
    Ok(slots)
}

impl<L: CellLaw> SharedBook<L> {
    /// A book with no cell and no claim, which may have so many cells, and its leading pass, which alone may begin forms.
    pub fn new(alloc: Global, law: L, cells: u32) -> Result<(SharedBook<L>, Pass), NoMemory>
        requires law { L.keeps law (fresh cells) }
        ensures { IfOk result (λ r. (r.0.law ≡ law) × (r.1 ≡ known r.0.table true (fresh cells) [])) }
    {
        let book = Book::new(alloc, cells)?;
        let Ok(slots) = slot_of(alloc, book) else {
            return Err(NoMemory);
        };
        let start = Start { law, limit: cells };
        match Table::new(alloc, &[0], slots, &start) {
            Ok((table, chair)) => Ok((SharedBook { table }, Pass { chair })),
            Err(_) => Err(NoMemory),
        }
    }

    /// The calls on the book by this pass.
    pub fn viewed<'a, R: Wait>(&'a self, rt: &'a R, pass: &'a mut Pass) -> Viewed<'a, L, R>
        requires table { pass.old.table ≡ self.now.table }
        ensures pass { (result.pass.ghost_name ≡ pass.entry.ghost_name) × (result.pass.now ≡ pass.old) }
        ensures book { result.book.now ≡ self.now }
    {
        Viewed {
            rt,
            book: self,
            pass,
        }
    }

    /// A pass for another thread. It has seen as much, has no claim open, and may not begin forms.
    pub fn split(&self, pass: &mut Pass) -> Result<Pass, NoMemory>
        requires table { pass.old.table ≡ self.now.table }
        ensures new { IfOk result (λ r. r ≡ known pass.old.table false pass.old.seen []) }
        ensures same { pass.new ≡ pass.old }
    {
        let chair = self.table.shared.split_seat::<Halves>(&mut pass.chair);
        Ok(Pass { chair })
    }

    /// Takes in a pass that `split` made. The pass keeps the longer of what the two have seen, to which both grow, and the claims of both, of which nothing was lost and nothing added.
    pub fn join(&self, pass: &mut Pass, other: Pass)
        requires table { (pass.old.table ≡ self.now.table) × (other.table ≡ self.now.table) }
        requires split { other.leads ≡ false }
        ensures seen { (pass.new.seen ≡ pass.old.seen) ⊎ (pass.new.seen ≡ other.seen) }
        ensures grown { Grows pass.old.seen pass.new.seen × Grows other.seen pass.new.seen }
        ensures own { (c : ℕ) → 0 < counted pass.old.claims c → Onward c (glimpse pass.old.seen) (glimpse pass.new.seen) }
        ensures others { (c : ℕ) → 0 < counted other.claims c → Onward c (glimpse other.seen) (glimpse pass.new.seen) }
        ensures claims { pass.new.claims ≡ pass.old.claims ++ other.claims }
        ensures table { (pass.new.table ≡ pass.old.table) × (pass.new.leads ≡ pass.old.leads) }
    {
        let Pass { chair } = other;
        let desk = &self.table.shared;
        desk.join_seat::<Whole>(&mut pass.chair, chair);
        desk.load::<Settles>(&mut pass.chair, 0);
    }
}
