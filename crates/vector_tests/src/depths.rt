ghost use Rattle.std.specs.Prelude.{◌≡◌, ◌+◌, ◌≤◌, IfOk, IsTrue};
ghost use Rattle.seq_values.specs.Depth.{depth, keeps_depth};
ghost use Rattle.seq_values.specs.WellFormed.{is_well_formed};

use crate::help::{crosses_threads, full, refused, shared};
use seq_values::{Held, Value, depth_of, integer, two_items, vector};
use seq_vector::Share;
use std::alloc::Global;
use std::test::Fail;
use std::thread;

#[tactic(auto, using(seq_values::proofs::DepthLemmas::reduced_is_deep, seq_values::proofs::DepthLemmas::reduced_keeps))]
/// A value round another, whatever its depth.
fn deeper(alloc: Global, value: Value) -> Result<Value, Fail>
    requires kept { IsTrue (keeps_depth value) }
    requires bound { depth value ≤ 300 }
    ensures kept { IfOk result (λ made. IsTrue (keeps_depth made)) }
    ensures depth { IfOk result (λ made. depth made ≡ depth value + 1) }
{
    let depth = depth_of(&value) + 1;
    let value = Held::of(alloc, value).map_err(refused)?;
    Ok(Value::Reduced { depth, value })
}

/// A number with levels round it.
fn nested(alloc: Global, levels: usize) -> Result<Value, Fail>
    requires { levels ≤ 300 }
    ensures { IfOk result (λ value. IsTrue (keeps_depth value)) }
{
    let mut value = Value::Int(7);
    for _ in 0..levels {
        value = deeper(alloc, value)?;
    }
    Ok(value)
}

#[test]
fn deepest(rt: HostRuntime) -> Result<(), Fail> {
    let value = nested(rt.alloc(), 256)?;
    let other = shared(crosses_threads(&value))?;
    assert_eq!(rt; depth_of(&other), 256);
    let (here, there) = thread::join(&rt, || value.share().is_ok(), || depth_of(&other) == 256);
    assert!(rt; here && there);
    drop(value);
    drop(other);
    assert_eq!(rt; depth_of(&nested(rt.alloc(), 257)?), 257);
    Ok(())
}

#[tactic(auto, using(crate::proofs::TwiceLemmas::twice_well, crate::proofs::TwiceLemmas::twice_within, crate::proofs::TwiceLemmas::twice_is_deep))]
/// The vector of a value, twice.
fn twice(alloc: Global, value: Value) -> Result<Value, Fail>
    requires well { IsTrue (is_well_formed value) }
    requires bound { depth value ≤ 255 }
    ensures well { IfOk result (λ made. IsTrue (is_well_formed made)) }
    ensures depth { IfOk result (λ made. depth made ≡ depth value + 1) }
{
    let other = shared(&value)?;
    let items = two_items(alloc, value, other).map_err(full)?;
    Ok(vector(items))
}

/// A number, twice in a vector that stands twice in a vector, and so on.
fn doubled(alloc: Global, levels: usize) -> Result<Value, Fail>
    requires { levels ≤ 256 }
    ensures { IfOk result (λ value. IsTrue (is_well_formed value)) }
{
    let mut value = integer(7);
    for _ in 0..levels {
        value = twice(alloc, value)?;
    }
    Ok(value)
}

/// A walk of the value would take 2^250 steps.
#[test]
fn measured_in_one_step(rt: HostRuntime) -> Result<(), Fail> {
    let value = doubled(rt.alloc(), 250)?;
    assert_eq!(rt; depth_of(&value), 250);
    drop(value);
    Ok(())
}
