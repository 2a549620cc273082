ghost use Rattle.std.specs.Prelude.{◌≡◌};

use crate::{drain, fill_and_drain};
use job_pool::{JobPool, Taken};
use seq_values::CellId;
use seq_vector::NoMemory;
use std::test::Fail;
use std::thread;

#[test]
fn a_job_comes_out_once(rt: HostRuntime) -> Result<(), Fail> {
    let Some(first) = CellId::of(1) else {
        return Err(Fail::from("number"));
    };
    let Ok((pool, mut pass)) = JobPool::new(rt.alloc()) else {
        return Err(Fail::from("memory"));
    };
    let Ok(mut other) = pool.split(&mut pass) else {
        return Err(Fail::from("memory"));
    };
    assert!(rt; pool.push(&rt, &mut pass, first).is_ok());
    assert!(rt; pool.take(&rt, &mut other) == Taken::Job(first));
    assert!(rt; pool.take(&rt, &mut other) == Taken::Nothing);
    assert!(rt; pool.push(&rt, &mut other, first).is_ok());
    pool.close(&mut other);
    assert!(rt; pool.take(&rt, &mut pass) == Taken::Job(first));
    assert!(rt; pool.take(&rt, &mut pass) == Taken::Closed);
    pool.join(&mut pass, other);
    assert!(rt; pool.take(&rt, &mut pass) == Taken::Closed);
    Ok(())
}

#[test]
fn two_threads_take_each_job_once(rt: HostRuntime) -> Result<(), Fail> {
    let Ok((pool, mut pass)) = JobPool::new(rt.alloc()) else {
        return Err(Fail::from("memory"));
    };
    let Ok(mut other) = pool.split(&mut pass) else {
        return Err(Fail::from("memory"));
    };
    let pool = &pool;
    let rt = &rt;
    let (first, second) = thread::join(
        rt,
        move || -> Result<Vec<u32>, NoMemory>
            requires { pass.pool ≡ pool.now }
        { fill_and_drain(rt, rt.alloc(), pool, &mut pass, 100) },
        move || -> Result<Vec<u32>, NoMemory>
            requires { other.pool ≡ pool.now }
        { drain(rt, rt.alloc(), pool, &mut other) },
    );
    let Ok(mut numbers) = first else {
        return Err(Fail::from("memory"));
    };
    let Ok(others) = second else {
        return Err(Fail::from("memory"));
    };
    for number in others {
        numbers.push(number)?;
    }
    numbers.sort()?;
    assert!(rt; numbers.len() == 100);
    for place in 0..numbers.len() {
        assert!(rt; numbers[place] as usize == place + 1);
    }
    Ok(())
}
