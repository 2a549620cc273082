use crate::{
    Both, Came, abandon, end, new_book, quiet_under, regroup, run_eight, run_two, tasks_of,
    tasks_on_one,
};
use cell_book::{Cells, Look, MakeRefusal, Totals};
use cell_client::{add, begin};
use cell_shared::Quiet;
use seq_values::{Kind, Value};
use std::alloc::Global;
use std::sync::Wait;
use std::test::Fail;
use std::thread::Threads;

fn is_seven(look: &Look) -> bool {
    matches!(look, Look::Done(Value::Int(7)))
}

// One thread finished the future, and the other came too late.
fn one_did_the_work(both: &Both) -> bool {
    match (both.first, both.second) {
        (Came::Finished, Came::Forced | Came::Done) => true,
        (Came::Forced | Came::Done, Came::Finished) => true,
        _ => false,
    }
}

// A leading pass makes one future, and two threads claim it.
fn raced<R: Threads + Wait + Sync>(rt: &R, alloc: Global) -> Result<bool, Fail> {
    let Ok((book, mut pass)) = new_book(alloc, 4) else {
        return Err(Fail::from("memory"));
    };
    let Ok(form) = begin(&mut book.viewed(rt, &mut pass), 1) else {
        return Err(Fail::from("memory"));
    };
    let tasks = tasks_on_one(rt, &book, &mut pass, &form);
    end(&mut book.viewed(rt, &mut pass), form);
    let Ok((first, second)) = tasks else {
        return Err(Fail::from("memory"));
    };
    let id = first.id;
    let both = run_two(rt, &book, first, second, 0);
    let one = one_did_the_work(&both);
    let Both { pass: other, .. } = both;
    book.join(&mut pass, other);
    let Ok(look) = book.viewed(rt, &mut pass).look(id) else {
        return Err(Fail::from("memory"));
    };
    Ok(one && is_seven(&look))
}

fn is_totals(quiet: Quiet, made: u32, realised: u32) -> bool {
    quiet
        == Quiet::Totals(Totals {
            made,
            realised,
            failed: 0,
        })
}

// A form makes a future, which is claimed and finished after the form has ended.
fn looks_at_a_future<R: Wait>(rt: &R, alloc: Global) -> Result<bool, Fail> {
    let Ok((book, mut pass)) = new_book(alloc, 1) else {
        return Err(Fail::from("memory"));
    };
    let none = is_totals(book.quiet_view(rt, &mut pass), 0, 0);
    let Ok(form) = begin(&mut book.viewed(rt, &mut pass), 1) else {
        return Err(Fail::from("memory"));
    };
    let claimed = quiet_under(rt, &book, &mut pass, &form) == Quiet::Claimed(form.claim());
    let future = add(&mut book.viewed(rt, &mut pass), &form, Kind::Future);
    end(&mut book.viewed(rt, &mut pass), form);
    let Ok(id) = future else {
        return Err(Fail::from("memory"));
    };
    let open = book.quiet_view(rt, &mut pass) == Quiet::OpenFuture(id);
    Ok(none && claimed && open)
}

// A form finds no room for a part.
fn looks_at_the_limit<R: Wait>(rt: &R, alloc: Global) -> Result<bool, Fail> {
    let Ok((book, mut pass)) = new_book(alloc, 0) else {
        return Err(Fail::from("memory"));
    };
    let Ok(form) = begin(&mut book.viewed(rt, &mut pass), 1) else {
        return Err(Fail::from("memory"));
    };
    let part = add(&mut book.viewed(rt, &mut pass), &form, Kind::Lazy);
    end(&mut book.viewed(rt, &mut pass), form);
    let spent = book.quiet_view(rt, &mut pass) == Quiet::Spent;
    Ok(spent && matches!(part, Err(MakeRefusal::Spent(_))))
}

// A form that made a future is given up.
fn looks_at_a_give_up<R: Wait>(rt: &R, alloc: Global) -> Result<bool, Fail> {
    let Ok((book, mut pass)) = new_book(alloc, 1) else {
        return Err(Fail::from("memory"));
    };
    let Ok(form) = begin(&mut book.viewed(rt, &mut pass), 1) else {
        return Err(Fail::from("memory"));
    };
    let future = add(&mut book.viewed(rt, &mut pass), &form, Kind::Future);
    abandon(&mut book.viewed(rt, &mut pass), form);
    let lost = book.quiet_view(rt, &mut pass) == Quiet::GaveUp;
    Ok(lost && future.is_ok())
}

#[test]
fn one_of_two_threads_does_the_work(rt: HostRuntime) -> Result<(), Fail> {
    for _ in 0..50 {
        assert!(rt; raced(&rt, rt.alloc())?);
    }
    Ok(())
}

#[test]
fn eight_threads_fill_one_book(rt: HostRuntime) -> Result<(), Fail> {
    let Ok((book, mut pass)) = new_book(rt.alloc(), 200000) else {
        return Err(Fail::from("memory"));
    };
    let Ok(form) = begin(&mut book.viewed(&rt, &mut pass), 1) else {
        return Err(Fail::from("memory"));
    };
    let one = tasks_of(&rt, &book, &mut pass, &form);
    let two = tasks_of(&rt, &book, &mut pass, &form);
    let three = tasks_of(&rt, &book, &mut pass, &form);
    let four = tasks_of(&rt, &book, &mut pass, &form);
    end(&mut book.viewed(&rt, &mut pass), form);
    let (Ok(one), Ok(two), Ok(three), Ok(four)) = (one, two, three, four) else {
        return Err(Fail::from("memory"));
    };
    let (other, all) = run_eight(&rt, &book, one, two, three, four, 12499);
    assert!(rt; all);
    book.join(&mut pass, other);
    let quiet = book.quiet_view(&rt, &mut pass);
    assert!(rt; is_totals(quiet, 100000, 100000));
    Ok(())
}

#[test]
fn a_look_finds_what_is_open(rt: HostRuntime) -> Result<(), Fail> {
    assert!(rt; looks_at_a_future(&rt, rt.alloc())?);
    assert!(rt; looks_at_the_limit(&rt, rt.alloc())?);
    assert!(rt; looks_at_a_give_up(&rt, rt.alloc())?);
    Ok(())
}

#[test]
fn many_passes_come_together(rt: HostRuntime) -> Result<(), Fail> {
    let Ok((book, mut pass)) = new_book(rt.alloc(), 4) else {
        return Err(Fail::from("memory"));
    };
    assert!(rt; regroup(&book, &mut pass, 200).is_ok());
    let quiet = book.quiet_view(&rt, &mut pass);
    assert!(rt; is_totals(quiet, 0, 0));
    Ok(())
}
