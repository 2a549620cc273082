//! Where each claim was opened, by its number, and which of them are open.
ghost use Rattle.std.specs.Prelude.{◌≡◌, ◌<◌, ◌≤◌, ◌++◌, ◌∷◌, [], ℕ, List, false, length, slice_get, Option, Some, OnOk, OnErr, option_map};
ghost use Rattle.cell_book.specs.Registers.{closed_at, spot_of, IsLowest, EndedBefore, FirstOpen};
ghost use Rattle.cell_book.specs.declared.claims.Entry.{Entry as Line};

use seq_values::CellId;
use seq_vector::NoMemory;
use std::alloc::Global;
use std::marker::Model;

/// Where a claim was opened.
#[derive(Clone, Copy)]
pub enum Spot {
    /// On the form at this place.
    Form { at: usize },
    /// On this part, as the attempt at this place.
    Part { cell: CellId, at: usize },
}

/// What is kept of a claim.
#[derive(Clone, Copy)]
pub struct Entry {
    pub spot: Spot,
    pub ended: bool,
}

/// All claims by their numbers. Contracts see the list of them.
#[derive(Drop)]
pub struct Claims {
    entries: Vec<Entry>,
    // Those below have ended.
    lowest: usize,
}

impl Model for Claims {
    ghost use Rattle.std.specs.Prelude.{List};
    ghost use Rattle.cell_book.specs.declared.claims.Entry.{Entry};
    ghost use Rattle.cell_book.specs.Registers.{FirstOpen};

    ghost Value = { List Entry };

    ghost view = { λ c. c.entries.items };

    ghost invariant = { λ c. FirstOpen c.entries.items c.lowest };
}

impl Claims {
    /// No claims. It takes no memory.
    #[tactic(auto, using(crate::proofs::Registering::first_none))]
    pub fn new(alloc: Global) -> Claims
        ensures { result ≡ [] }
    {
        Claims {
            entries: Vec::new(alloc),
            lowest: 0,
        }
    }

    /// How many there are, which is the number of the next.
    pub fn len(&self) -> usize
        ensures { result ≡ length self.now }
    {
        self.entries.len()
    }

    /// Where a claim was opened, and `None` exactly for a number that is no claim.
    pub fn spot(&self, claim: u128) -> Option<Spot>
        ensures { result ≡ option_map spot_of (slice_get self.now claim) }
    {
        if claim < self.entries.len() as u128 {
            Some(self.entries[claim as usize].spot)
        } else {
            None
        }
    }

    /// The open claim with the lowest number, and `None` exactly where none is open.
    #[tactic(auto, using(crate::proofs::Registering::lowest_none, crate::proofs::Registering::lowest_some))]
    pub fn lowest(&self) -> Option<u128>
        ensures { IsLowest self.now result }
    {
        if self.lowest < self.entries.len() {
            Some(self.lowest as u128)
        } else {
            None
        }
    }

    /// Opens a claim at this spot, with the next number.
    #[tactic(auto, using(crate::proofs::Registering::first_push))]
    pub fn add(&mut self, spot: Spot) -> Result<(), NoMemory>
        ensures ok { OnOk result (self.new ≡ self.old ++ record { spot = spot; ended = false } ∷ []) }
        ensures err { OnErr result (self.new ≡ self.old) }
    {
        match self.entries.push(Entry { spot, ended: false }) {
            Ok(()) => Ok(()),
            Err(_) => Err(NoMemory),
        }
    }

    /// Takes back the last claim that was added, as if it had never been opened.
    #[tactic(auto, using(crate::proofs::Registering::first_back, crate::proofs::Registering::first_still, crate::proofs::Registering::same_front))]
    pub fn take_back(&mut self)
        requires { 0 < length self.old }
        ensures { (first : List Line) (last : Line) → self.old ≡ first ++ last ∷ [] → self.new ≡ first }
    {
        match self.entries.pop() {
            None => unreachable!(),
            Some(_) => {
                if self.entries.len() < self.lowest {
                    self.lowest = self.entries.len();
                }
            }
        }
    }

    /// Ends a claim.
    #[tactic(auto, using(crate::proofs::Registering::closed_within, crate::proofs::Registering::closed_before))]
    pub fn close(&mut self, claim: u128)
        ensures { self.new ≡ closed_at claim self.old }
    {
        end_entry(&mut self.entries, claim);
        self.lowest = first_open(self.entries.as_slice(), self.lowest);
    }
}

/// Writes that a claim has ended, if there is one with this number.
#[tactic(auto, using(crate::proofs::Registering::closed_past, crate::proofs::Registering::closed_written))]
fn end_entry(entries: &mut Vec<Entry>, claim: u128)
    ensures { entries.new.items ≡ closed_at claim entries.old.items }
{
    if claim < entries.len() as u128 {
        entries[claim as usize].ended = true;
    }
}

/// The place of the first claim from here on that is open, or how many claims there are.
#[tactic(auto, using(crate::proofs::Registering::first_found, crate::proofs::Registering::first_past, crate::proofs::Registering::ended_next))]
fn first_open(entries: &[Entry], from: usize) -> usize
    requires within { from ≤ length entries.now }
    requires before { EndedBefore entries.now from }
    ensures { FirstOpen entries.now result }
{
    let mut at = from;
    while at < entries.len() {
        if !entries[at].ended {
            return at;
        }
        at += 1;
    }
    at
}
