//! What no clause says: that tokens get somewhere, in one thread and across threads.
use crate::{Bench, Pool};
use prefix_jobs::{Number, Token};
use std::process::Abort;
use std::sync::Wait;
use std::test::Fail;

fn token(place: u64, index: u32) -> Token {
    Token {
        number: Number { place, index },
    }
}

/// The place and the index of a token that was taken.
fn told(taken: Option<Token>) -> Option<(u64, u32)> {
    let token = taken?;
    Some((token.number.place, token.number.index))
}

fn sent<T: Send>(value: T) -> T {
    value
}

#[test]
fn the_owner_takes_the_newest_and_a_thief_the_oldest(rt: HostRuntime) -> Result<(), Fail> {
    let mut benches = Pool::make(rt.alloc(), 2)?;
    let mut thief = benches.pop().ok_or("two")?;
    let mut owner = benches.pop().ok_or("two")?;
    for index in 0..3 {
        assert!(rt; owner.put(token(2, index)).is_ok());
    }
    assert_eq!(rt; told(thief.steal(&rt)), Some((2, 0)));
    assert_eq!(rt; told(owner.own()), Some((2, 2)));
    assert!(rt; !owner.is_empty());
    assert_eq!(rt; told(owner.own()), Some((2, 1)));
    assert!(rt; owner.is_empty());
    assert_eq!(rt; told(owner.own()), None);
    assert_eq!(rt; told(thief.steal(&rt)), None);
    Ok(())
}

#[test]
fn a_pool_counts_who_is_hungry(rt: HostRuntime) -> Result<(), Fail> {
    let mut benches = Pool::make(rt.alloc(), 2)?;
    let mut first = benches.pop().ok_or("two")?;
    let mut second = sent(benches.pop().ok_or("two")?);
    first.hungry(false);
    first.hungry(false);
    assert!(rt; first.anyone_hungry());
    second.hungry(false);
    assert!(rt; !first.anyone_hungry());
    first.hungry(true);
    assert!(rt; second.anyone_hungry());
    Ok(())
}

/// Each thief takes one token from each of the others.
fn steal_round(rt: &(impl Abort + Wait), benches: &mut [Bench]) {
    let count = benches.len();
    for thief in 0..count {
        for _ in 1..count {
            assert!(rt; benches[thief].steal(rt).is_some());
        }
    }
}

#[test]
fn each_of_sixteen_thieves_steals_from_each_other_bench(rt: HostRuntime) -> Result<(), Fail> {
    let mut benches = Pool::make(rt.alloc(), 16)?;
    for bench in 0..benches.len() {
        for index in 0..15 {
            assert!(rt; benches[bench].put(token(bench as u64, index)).is_ok());
        }
    }
    steal_round(&rt, benches.as_mut_slice());
    for bench in 0..benches.len() {
        assert!(rt; benches[bench].steal(&rt).is_none());
        assert!(rt; benches[bench].own().is_none());
    }
    Ok(())
}
