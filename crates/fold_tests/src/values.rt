//! What the words of reducers make, what of that a fold may split, and where it halves items.
use reducer_values::{Foldable, foldable_of, is_reducer, is_reducer_word, reducer_call, split};
use seq_base::word_of;
use seq_turns::{Gathered, Made, Proper, ProperList, vector_made};
use seq_values::{Builtin, word_value};
use seq_vector::NoMemory;
use std::alloc::Global;
use std::test::Fail;

/// A collection at the bottom.
#[derive(Clone, Copy)]
enum Source {
    Nil,
    /// `[]`
    Empty,
    /// `[1 2 3]`
    Three,
}

/// Words from the innermost outwards, the collection under them, and what a fold may split of that, or the error's word.
const ROWS: [(&[Builtin], Source, &str); 14] = [
    (&[], Source::Three, "0 stages, 3 items"),
    (&[], Source::Empty, "0 stages, 0 items"),
    (&[], Source::Nil, "whole"),
    (&[Builtin::ReducerMap], Source::Three, "1 stages, 3 items"),
    (
        &[Builtin::ReducerFilter],
        Source::Three,
        "1 stages, 3 items",
    ),
    (
        &[Builtin::ReducerRemove],
        Source::Empty,
        "1 stages, 0 items",
    ),
    (
        &[Builtin::ReducerMapcat],
        Source::Three,
        "1 stages, 3 items",
    ),
    (&[Builtin::ReducerTake], Source::Three, "whole"),
    (&[Builtin::ReducerTakeWhile], Source::Three, "whole"),
    (&[Builtin::ReducerMap], Source::Nil, "whole"),
    (
        &[Builtin::ReducerFilter, Builtin::ReducerMap],
        Source::Three,
        "2 stages, 3 items",
    ),
    (
        &[Builtin::ReducerTake, Builtin::ReducerMap],
        Source::Three,
        "whole",
    ),
    (
        &[
            Builtin::ReducerMap,
            Builtin::ReducerMapcat,
            Builtin::ReducerRemove,
        ],
        Source::Three,
        "3 stages, 3 items",
    ),
    (
        &[Builtin::ReducerMap, Builtin::ReducerTakeWhile],
        Source::Nil,
        "whole",
    ),
];

/// How many items, how many a group has at most, and how many the first half has.
const SPLITS: [(u32, u32, Option<u32>); 8] = [
    (0, 1, None),
    (1, 1, None),
    (2, 1, Some(1)),
    (3, 1, Some(1)),
    (512, 512, None),
    (513, 512, Some(256)),
    (4294967295, 4294967294, Some(2147483647)),
    (4294967295, 4294967295, None),
];

fn full(_why: NoMemory) -> Fail {
    Fail::from("no memory")
}

fn made(what: Made) -> Result<Proper, Fail> {
    match what {
        Made::Value(value) => Ok(value),
        Made::Thrown(_) => Err(Fail::from("thrown")),
    }
}

/// `[1 2 3]`
fn three(alloc: Global) -> Result<Proper, Fail> {
    let items = Gathered::none(alloc);
    let items = one_more(items, 1)?;
    let items = one_more(items, 2)?;
    let items = one_more(items, 3)?;
    made(vector_made(items.listed(alloc).map_err(full)?))
}

fn one_more(items: Gathered, number: i64) -> Result<Gathered, Fail> {
    if items.len() >= 4294967295 {
        return Err(Fail::from("many"));
    }
    let all = items.and(Proper::of_int(number)).map_err(full)?;
    Ok(all)
}

fn source_of(alloc: Global, source: Source) -> Result<Proper, Fail> {
    match source {
        Source::Nil => Ok(Proper::nil()),
        Source::Empty => made(vector_made(ProperList::none())),
        Source::Three => three(alloc),
    }
}

/// What a word is given before the collection: 2, or `inc`.
fn first_of(word: Builtin) -> Proper {
    match word {
        Builtin::ReducerTake => Proper::of_int(2),
        _ => Proper {
            value: word_value(Builtin::Inc),
        },
    }
}

/// A call of a word of reducers.
fn called(word: Builtin, args: ProperList) -> Result<Made, Fail> {
    if !is_reducer_word(word) {
        return Err(Fail::from("another word"));
    }
    Ok(reducer_call(word, args))
}

/// A reducer value of one layer more.
fn layer(alloc: Global, word: Builtin, inner: Proper) -> Result<Proper, Fail> {
    let args = ProperList::two(alloc, first_of(word), inner).map_err(full)?;
    let outer = made(called(word, args)?)?;
    if !is_reducer(&outer.value) {
        return Err(Fail::from("no reducer value"));
    }
    Ok(outer)
}

fn layers(alloc: Global, words: &[Builtin], source: Source) -> Result<Proper, Fail> {
    let mut whole = source_of(alloc, source)?;
    for word in words {
        whole = layer(alloc, *word, whole)?;
    }
    Ok(whole)
}

fn shown(alloc: Global, foldable: Option<Foldable>) -> Result<String, Fail> {
    match foldable {
        None => Ok(String::from_str(alloc, "whole")?),
        Some(foldable) => {
            let stages = foldable.stages.len();
            let items = foldable.items.len();
            Ok(format!(in alloc; "{stages} stages, {items} items")?)
        }
    }
}

fn row(alloc: Global, words: &[Builtin], source: Source) -> Result<String, Fail> {
    let whole = layers(alloc, words, source)?;
    let foldable = foldable_of(alloc, &whole).map_err(full)?;
    shown(alloc, foldable)
}

#[test]
fn folds_split(rt: HostRuntime) -> Result<(), Fail> {
    for (words, source, expected) in &ROWS {
        let found = row(rt.alloc(), words, *source)?;
        assert_eq!(rt; found.as_str(), *expected);
    }
    Ok(())
}

/// The error's word of a call.
fn error(word: Builtin, args: ProperList) -> Result<&'static [u8], Fail> {
    match called(word, args)? {
        Made::Value(_) => Ok(b"none".as_slice()),
        Made::Thrown(why) => Ok(word_of(why)),
    }
}

#[test]
fn words_take_two(rt: HostRuntime) -> Result<(), Fail> {
    for word in [
        Builtin::ReducerMap,
        Builtin::ReducerFilter,
        Builtin::ReducerRemove,
        Builtin::ReducerMapcat,
        Builtin::ReducerTake,
        Builtin::ReducerTakeWhile,
    ] {
        let one = ProperList::one(rt.alloc(), first_of(word)).map_err(full)?;
        assert_eq!(rt; error(word, one)?, b"arity".as_slice());
    }
    Ok(())
}

#[test]
fn take_takes_an_integer(rt: HostRuntime) -> Result<(), Fail> {
    let args = ProperList::two(rt.alloc(), Proper::nil(), Proper::nil()).map_err(full)?;
    assert_eq!(rt; error(Builtin::ReducerTake, args)?, b"type".as_slice());
    Ok(())
}

/// A reducer value may be 256 deep, and no deeper. A word as a function has depth 1, and so the innermost layer depth 2.
#[test]
fn depth_is_limited(rt: HostRuntime) -> Result<(), Fail> {
    let mut whole = Proper::nil();
    for _ in 0..255 {
        whole = layer(rt.alloc(), Builtin::ReducerMap, whole)?;
    }
    let args = ProperList::two(rt.alloc(), Proper::nil(), whole).map_err(full)?;
    assert_eq!(rt; error(Builtin::ReducerMap, args)?, b"depth".as_slice());
    Ok(())
}

#[test]
fn items_are_halved(rt: HostRuntime) -> Result<(), Fail> {
    for (count, size, expected) in &SPLITS {
        if *size == 0 {
            return Err(Fail::from("no size"));
        }
        assert_eq!(rt; split(*count, *size), *expected);
    }
    Ok(())
}
