ghost use Rattle.std.specs.Prelude.{◌≡◌, ◌+◌, ◌*◌, ◌/◌, ◌<◌, ◌≤◌, ℕ, List, [], ◌∷◌, ◌++◌, length, take, drop, slice_get, Some, IfOk};
ghost use Rattle.std.specs.Option.{option_copied};
ghost use Rattle.seq_vector.specs.Blocks.{deep_items, IsDeep};

use crate::run::Run;
use crate::share::{NoMemory, Share};
use std::alloc::Global;

/// A sequence of blocks that is never changed in place. Each level of a vector is one: its lowest level has the items as its blocks, and each level hands 32 blocks in one to the level above.
pub trait Blocks<B>: Share {
    ghost blocks: { Self → List B };

    ghost IsGood: { Self → Type 0 };

    /// No block. It takes no memory.
    fn none() -> Self
        ensures empty { blocks result ≡ [] }
        ensures good { IsGood result };

    /// How many blocks there are.
    fn count(&self) -> usize
        requires good { IsGood self.now }
        ensures { result ≡ length (blocks self.now) };

    /// The block at a place.
    fn block(&self, at: usize) -> Option<&B>
        requires good { IsGood self.now }
        requires bound { length (blocks self.now) ≤ 4294967295 }
        ensures { option_copied result ≡ slice_get (blocks self.now) at };

    /// The blocks and one more.
    fn with(&self, alloc: Global, block: B) -> Result<Self, NoMemory>
        requires good { IsGood self.now }
        requires bound { length (blocks self.now) < 4294967295 }
        ensures same { IfOk result (λ all. blocks all ≡ blocks self.now ++ block ∷ []) }
        ensures good { IfOk result (λ all. IsGood all) };

    /// The first `count` blocks.
    fn first(&self, alloc: Global, count: usize) -> Result<Self, NoMemory>
        requires good { IsGood self.now }
        requires bound { (length (blocks self.now) ≤ 4294967295) × (count ≤ length (blocks self.now)) }
        ensures same { IfOk result (λ part. blocks part ≡ take count (blocks self.now)) }
        ensures good { IfOk result (λ part. IsGood part) };

    /// The blocks after the first `count`.
    fn after(&self, alloc: Global, count: usize) -> Result<Self, NoMemory>
        requires good { IsGood self.now }
        requires bound { (length (blocks self.now) ≤ 4294967295) × (count ≤ length (blocks self.now)) }
        ensures same { IfOk result (λ part. blocks part ≡ drop count (blocks self.now)) }
        ensures good { IfOk result (λ part. IsGood part) };
}

/// The highest level: the blocks side by side.
impl<B: Share> Blocks<B> for Run<B> {
    ghost blocks = { λ run. run };

    ghost IsGood = { λ run. Unit {0} };

    fn none() -> Run<B> {
        Run::new()
    }

    fn count(&self) -> usize {
        self.len()
    }

    fn block(&self, at: usize) -> Option<&B> {
        self.get(at)
    }

    fn with(&self, alloc: Global, block: B) -> Result<Run<B>, NoMemory> {
        self.and(alloc, block)
    }

    fn first(&self, alloc: Global, count: usize) -> Result<Run<B>, NoMemory> {
        self.part(alloc, 0, count)
    }

    fn after(&self, alloc: Global, count: usize) -> Result<Run<B>, NoMemory> {
        self.part(alloc, count, self.len() - count)
    }
}

/// A level: a few blocks, then blocks that stand 32 in one, then a few blocks again. So a part may begin and end at any block, and shares what lies between.
#[derive(Drop)]
pub struct Deep<B, U> {
    pub(crate) count: usize,
    pub(crate) left: Run<B>,
    pub(crate) upper: U,
    pub(crate) right: Run<B>,
}

/// Three atomic increments at most, whatever the blocks are.
impl<B: Drop, U: Share> Share for Deep<B, U> {
    fn share(&self) -> Result<Deep<B, U>, NoMemory> {
        let left = self.left.share()?;
        let upper = self.upper.share()?;
        let right = self.right.share()?;
        Ok(Deep {
            count: self.count,
            left,
            upper,
            right,
        })
    }
}

#[tactic(auto, using(crate::proofs::BlockLemmas::inside_fits, crate::proofs::BlockLemmas::upper_fits))]
/// How many blocks stand 32 in one.
pub fn inside<B: Share, U: Blocks<Run<B>>>(deep: &Deep<B, U>) -> usize
    requires good { IsDeep U.blocks U.IsGood deep.now }
    requires bound { length (deep_items U.blocks deep.now) ≤ 4294967295 }
    ensures same { result ≡ length (U.blocks deep.now.upper) * 32 }
    ensures upper { length (U.blocks deep.now.upper) ≤ 4294967295 }
    ensures bound { result ≤ 4294967295 }
{
    let above = deep.upper.count();
    let small = above <= 4_294_967_295;
    prove!(small);
    above * 32
}

#[tactic(auto, using(crate::proofs::BlockLemmas::full_at, crate::proofs::BlockLemmas::row_of))]
/// The 32 blocks among which a place lies that is counted from the first of them.
pub fn run_at<B: Share, U: Blocks<Run<B>>>(deep: &Deep<B, U>, place: usize) -> &Run<B>
    requires good { IsDeep U.blocks U.IsGood deep.now }
    requires upper { length (U.blocks deep.now.upper) ≤ 4294967295 }
    requires bound { place < length (U.blocks deep.now.upper) * 32 }
    ensures same { Some result.now ≡ slice_get (U.blocks deep.now.upper) (place / 32) }
    ensures full { 32 ≡ length result.now }
{
    match deep.upper.block(place / 32) {
        Some(run) => run,
        None => unreachable!(),
    }
}

impl<B: Share, U: Blocks<Run<B>>> Blocks<B> for Deep<B, U> {
    ghost blocks = { deep_items U.blocks };

    ghost IsGood = { IsDeep U.blocks U.IsGood };

    fn none() -> Deep<B, U> {
        Deep {
            count: 0,
            left: Run::new(),
            upper: U::none(),
            right: Run::new(),
        }
    }

    fn count(&self) -> usize {
        self.count
    }

    fn block(&self, at: usize) -> Option<&B> {
        let before = self.left.len();
        if at < before {
            return self.left.get(at);
        }
        let place = at - before;
        let inside = inside(self);
        if place < inside {
            run_at(self, place).get(place % 32)
        } else {
            self.right.get(place - inside)
        }
    }

    fn with(&self, alloc: Global, block: B) -> Result<Deep<B, U>, NoMemory> {
        let left = self.left.share()?;
        if self.right.len() < 32 {
            let upper = self.upper.share()?;
            let right = self.right.and(alloc, block)?;
            return Ok(Deep {
                count: self.count + 1,
                left,
                upper,
                right,
            });
        }
        let upper = self.upper.with(alloc, self.right.share()?)?;
        let right = Run::one(alloc, block)?;
        Ok(Deep {
            count: self.count + 1,
            left,
            upper,
            right,
        })
    }

    fn first(&self, alloc: Global, count: usize) -> Result<Deep<B, U>, NoMemory> {
        let before = self.left.len();
        if count <= before {
            let left = self.left.part(alloc, 0, count)?;
            return Ok(Deep {
                count,
                left,
                upper: U::none(),
                right: Run::new(),
            });
        }
        let left = self.left.share()?;
        let place = count - before;
        let inside = inside(self);
        if place < inside {
            let upper = self.upper.first(alloc, place / 32)?;
            let right = run_at(self, place).part(alloc, 0, place % 32)?;
            Ok(Deep {
                count,
                left,
                upper,
                right,
            })
        } else {
            let upper = self.upper.share()?;
            let right = self.right.part(alloc, 0, place - inside)?;
            Ok(Deep {
                count,
                left,
                upper,
                right,
            })
        }
    }

    fn after(&self, alloc: Global, count: usize) -> Result<Deep<B, U>, NoMemory> {
        let before = self.left.len();
        if count <= before {
            let left = self.left.part(alloc, count, before - count)?;
            let upper = self.upper.share()?;
            let right = self.right.share()?;
            return Ok(Deep {
                count: self.count - count,
                left,
                upper,
                right,
            });
        }
        let place = count - before;
        let inside = inside(self);
        if place < inside {
            let upper = self.upper.after(alloc, place / 32 + 1)?;
            let right = self.right.share()?;
            let left = run_at(self, place).part(alloc, place % 32, 32 - place % 32)?;
            Ok(Deep {
                count: self.count - count,
                left,
                upper,
                right,
            })
        } else {
            let left = self.right.part(alloc, place - inside, self.count - count)?;
            Ok(Deep {
                count: self.count - count,
                left,
                upper: U::none(),
                right: Run::new(),
            })
        }
    }
}
