ghost use Rattle.std.specs.Prelude.{◌≡◌, IfOk};

use seq_vector::{NoMemory, PVec, Share};
use std::alloc::Global;
use std::test::Fail;

/// Asks that a value may cross threads.
pub fn crosses_threads<T: Send + Sync>(value: &T) -> &T
    ensures { result.now ≡ value.now }
{
    value
}

pub fn refused<T: Drop>(_back: (T, NoMemory)) -> Fail {
    Fail::from("no memory")
}

pub fn full(_why: NoMemory) -> Fail {
    Fail::from("no memory")
}

/// The same value, with one more owner.
pub fn shared<T: Share>(value: &T) -> Result<T, Fail>
    ensures { IfOk result (λ copy. copy ≡ value.now) }
{
    match value.share() {
        Ok(copy) => Ok(copy),
        Err(_) => Err(Fail::from("no memory")),
    }
}

/// The vector with one more item.
pub fn pushed<T: Share>(alloc: Global, items: &PVec<T>, item: T) -> Result<PVec<T>, Fail> {
    if items.len() >= 4_294_967_295 {
        return Err(Fail::from("full"));
    }
    items.push(alloc, item).map_err(refused)
}

/// The items as a vector.
pub fn from_items<T: Share>(alloc: Global, items: Vec<T>) -> Result<PVec<T>, Fail> {
    if items.len() > 4_294_967_295 {
        return Err(Fail::from("too many"));
    }
    PVec::from_items(alloc, items).map_err(refused)
}
