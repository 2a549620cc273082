use crate::help::{crosses_threads, from_items, full, pushed};
use seq_vector::{PVec, Share, Shared};
use std::alloc::Global;
use std::test::Fail;
use std::thread;

/// The numbers 0, 1, .. as a `Vec`.
fn numbers(alloc: Global, count: u32) -> Result<Vec<u32>, Fail> {
    let mut items = Vec::new(alloc);
    for item in 0..count {
        items.push(item)?;
    }
    Ok(items)
}

/// The numbers 0, 1, .. as a vector that has them from a `Vec`.
fn counted(alloc: Global, count: u32) -> Result<PVec<u32>, Fail> {
    from_items(alloc, numbers(alloc, count)?)
}

/// The `count` items from `from`, which are there.
fn part(alloc: Global, items: &PVec<u32>, from: usize, count: usize) -> Result<PVec<u32>, Fail> {
    match items.window(alloc, from, count).map_err(full)? {
        Some(part) => Ok(part),
        None => Err(Fail::from("no window")),
    }
}

/// Whether the first item and the last are these, and no item is behind them.
fn ends_in(items: &PVec<u32>, first: u32, last: u32, count: usize) -> bool {
    items.len() == count
        && items.get(0) == Some(&first)
        && items.get(count.saturating_sub(1)) == Some(&last)
        && items.get(count).is_none()
}

/// Whether a vector with one item more ends in it, while the earlier vector ends as before.
fn pushes_behind(alloc: Global, items: &PVec<u32>, first: u32, last: u32) -> Result<bool, Fail> {
    let count = items.len();
    let longer = pushed(alloc, items, 7)?;
    Ok(ends_in(&longer, first, 7, count.saturating_add(1)) && ends_in(items, first, last, count))
}

#[test]
fn pushes_to_33(rt: HostRuntime) -> Result<(), Fail> {
    let few = counted(rt.alloc(), 33)?;
    assert!(rt; pushes_behind(rt.alloc(), &few, 0, 32)?);
    Ok(())
}

#[test]
fn pushes_to_1056(rt: HostRuntime) -> Result<(), Fail> {
    let whole = counted(rt.alloc(), 1056)?;
    assert!(rt; pushes_behind(rt.alloc(), &whole, 0, 1055)?);
    Ok(())
}

/// Whether the last 56 of 1056 items and one more are 57 items.
fn pushes_to_window(alloc: Global, whole: &PVec<u32>) -> Result<bool, Fail> {
    let end = part(alloc, whole, 1000, 56)?;
    pushes_behind(alloc, &end, 1000, 1055)
}

#[test]
fn pushes_to_a_window(rt: HostRuntime) -> Result<(), Fail> {
    let whole = counted(rt.alloc(), 1056)?;
    assert!(rt; pushes_to_window(rt.alloc(), &whole)?);
    assert_eq!(rt; whole.len(), 1056);
    Ok(())
}

/// 34 items, the last of them pushed.
fn one_more_than_33(alloc: Global) -> Result<PVec<u32>, Fail> {
    let few = counted(alloc, 33)?;
    pushed(alloc, &few, 100)
}

#[test]
fn windows_end_with_the_vector(rt: HostRuntime) -> Result<(), Fail> {
    let alloc = rt.alloc();
    let more = one_more_than_33(alloc)?;
    assert!(rt; more.window(alloc, 33, 2).map_err(full)?.is_none());
    assert_eq!(rt;
        part(alloc, &more, 32, 2)?.run_from(0),
        [32, 100].as_slice()
    );
    Ok(())
}

#[test]
fn empty_and_single(rt: HostRuntime) -> Result<(), Fail> {
    assert_eq!(rt; PVec::<u32>::new().len(), 0);
    let one = Shared::of(rt.alloc(), 7u32).map_err(|_| Fail::from("no memory"))?;
    assert_eq!(rt; *one.get(), 7);
    Ok(())
}

/// The vector with `count` items more, from `from` on, pushed one by one.
fn grown_by(alloc: Global, mut all: PVec<u32>, from: u32, count: u32) -> Result<PVec<u32>, Fail> {
    for at in 0..count {
        all = pushed(alloc, &all, from.wrapping_add(at))?;
    }
    Ok(all)
}

/// One that copied the vector at each push would take 2 * 10^10 steps.
#[test]
fn grows_by_pushes(rt: HostRuntime) -> Result<(), Fail> {
    let mut all = PVec::new();
    for thousand in 0..200u32 {
        all = grown_by(rt.alloc(), all, thousand * 1000, 1000)?;
        let last = thousand * 1000 + 999;
        assert_eq!(rt; all.get(last as usize), Some(&last));
    }
    assert_eq!(rt; all.len(), 200_000);
    assert_eq!(rt; all.get(123_456), Some(&123_456));
    Ok(())
}

/// The same list, as a vector and as a plain `Vec`.
#[derive(Drop)]
struct Both {
    items: PVec<u32>,
    plain: Vec<u32>,
}

/// The next of a series of numbers that look random.
fn next(seed: u64) -> u64 {
    seed.wrapping_mul(6_364_136_223_846_793_005)
        .wrapping_add(1_442_695_040_888_963_407)
}

/// A number below a bound that isn't 0.
fn below(seed: u64, bound: usize) -> usize {
    (seed >> 33) as usize % bound.max(1)
}

/// Both lists without some items at either end.
fn cut(alloc: Global, both: &Both, from: usize, less: usize) -> Result<Both, Fail> {
    let from = from.min(both.plain.len());
    let to = both.plain.len().saturating_sub(less).max(from);
    let items = part(alloc, &both.items, from, to.saturating_sub(from))?;
    match both.plain.get(from..to) {
        Some(rest) => Ok(Both {
            items,
            plain: Vec::from_slice(alloc, rest)?,
        }),
        None => Err(Fail::from("no rest")),
    }
}

/// Both lists with one more item.
fn grown(alloc: Global, mut both: Both, item: u32) -> Result<Both, Fail> {
    both.plain.push(item)?;
    let items = pushed(alloc, &both.items, item)?;
    Ok(Both {
        items,
        plain: both.plain,
    })
}

/// Whether the lists have the same items, read side by side.
fn alike(both: &Both) -> bool {
    let mut at = 0usize;
    for _ in 0..both.plain.len() {
        let run = both.items.run_from(at);
        let end = at.saturating_add(run.len());
        if both.plain.get(at..end) != Some(run) {
            return false;
        }
        if run.is_empty() || end == both.plain.len() {
            return end == both.items.len();
        }
        at = end;
    }
    both.items.len() == 0
}

/// Some steps of a series of windows and pushes, with the item at some place read after each.
fn steps(alloc: Global, mut both: Both, mut seed: u64, count: u32) -> Result<(Both, u64), Fail> {
    for step in 0..count {
        seed = next(seed);
        let at = below(seed, both.plain.len());
        if both.items.get(at) != both.plain.get(at) {
            return Err(Fail::from("another item"));
        }
        both = match below(next(seed), 4) {
            0 => cut(alloc, &both, below(seed, 70), 0)?,
            1 => cut(alloc, &both, 0, below(seed, 70))?,
            2 => cut(alloc, &both, below(seed, 3), below(seed, 5))?,
            _ => grown(alloc, both, step)?,
        };
    }
    Ok((both, seed))
}

#[test]
fn windows_of_windows(rt: HostRuntime) -> Result<(), Fail> {
    let alloc = rt.alloc();
    let mut seed = 13u64;
    for count in [1500u32, 5000, 10_000, 34_000] {
        let plain = numbers(alloc, count)?;
        let items = counted(alloc, count)?;
        let (both, later) = steps(alloc, Both { items, plain }, seed, 500)?;
        assert!(rt; alike(&both));
        seed = later;
    }
    Ok(())
}

/// A share that copied an item would take 10^11 steps here.
#[test]
fn shares_without_copying(rt: HostRuntime) -> Result<(), Fail> {
    let alloc = rt.alloc();
    let many = counted(alloc, 100_000)?;
    let mut last = PVec::new();
    for _ in 0..1_000_000usize {
        last = many.share().map_err(full)?;
    }
    assert_eq!(rt; last.len(), 100_000);
    let (here, there) = thread::join(
        &rt,
        || crosses_threads(&many).share().is_ok(),
        || crosses_threads(&last).get(99_999) == Some(&99_999),
    );
    assert!(rt; here && there);
    Ok(())
}
