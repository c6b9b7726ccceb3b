//! A list of numbers is shared, and each number keeps the pass that appended it.
ghost use Rattle.std.specs.Prelude.{◌≡◌, ◌<◌, ◌++◌, [], ◌∷◌, All, MatchResult, length};
ghost use Rattle.turn_cell.specs.Passes.{IsPassOf};

use crate::{Act, Journalled, Pass, TurnCell};
use std::alloc::AllocError;
use std::sync::Wait;
use std::test::Fail;
use std::thread;
use std::thread::Threads;

/// The entries are pairs of a pass number and a number.
#[derive(Drop)]
struct Log {
    entries: Vec<(u32, u32)>,
}

impl Journalled for Log {
    type Entry = (u32, u32);

    type Fixed = ();

    ghost journal = { λ l. l.entries.items };

    ghost pass_of = { λ e. e.0 };

    ghost fixed = { λ l. tt };

    fn journal_len(&self) -> u64 {
        self.entries.len() as u64
    }
}

#[derive(Drop)]
struct Append(u32);

impl Act<Log> for Append {
    type Answer = Result<(), AllocError>;

    ghost can = { λ a l pass. Unit {0} };

    ghost does = { λ a l pass m answer. MatchResult answer
        (λ _. m.entries.items ≡ l.entries.items ++ (pass, a.0) ∷ [])
        (λ _. m.entries.items ≡ l.entries.items) };

    fn act(self, value: &mut Log, pass: u32) -> Result<(), AllocError> {
        value.entries.push((pass, self.0))?;
        Ok(())
    }
}

#[test]
fn two_passes_in_one_thread(rt: HostRuntime) -> Result<(), Fail> {
    let log = Log {
        entries: Vec::new(rt.alloc()),
    };
    let (cell, mut passes) = TurnCell::make(rt.alloc(), log, 2).map_err(|e| e.1)?;
    assert_eq!(rt; passes.len(), 2);
    assert_eq!(rt; passes[0].number(), 0);
    assert_eq!(rt; passes[1].number(), 1);
    cell.turn(&rt, &mut passes[0], Append(5))?;
    cell.turn(&rt, &mut passes[1], Append(7))?;
    let log = cell.close(passes);
    assert_eq!(rt; log.entries.as_slice(), [(0, 5), (1, 7)].as_slice());
    Ok(())
}

/// Appends a thousand numbers, each the next but one: the even ones where the number of the pass is
/// even, else the odd ones.
fn append_each_second<R: Wait>(rt: &R, cell: &TurnCell<Log>, pass: &mut Pass<Log>)
    requires { IsPassOf cell.now pass.old }
    ensures { IsPassOf cell.now pass.new }
{
    let first = pass.number() % 2;
    for half in 0..1000 {
        let _ = cell.turn(rt, pass, Append(2 * half + first));
    }
}

/// Each pass on a thread of its own.
fn append_all<R: Threads + Wait + Sync>(rt: &R, cell: &TurnCell<Log>, passes: &mut [Pass<Log>])
    requires { (0 < length passes.old) × All (IsPassOf cell.now) passes.old }
    ensures { All (IsPassOf cell.now) passes.new }
{
    thread::for_each_mut(
        rt,
        passes,
        passes.len(),
        &|_, pass| append_each_second(rt, cell, pass),
    );
}

#[test]
fn two_passes_in_two_threads(rt: HostRuntime) -> Result<(), Fail> {
    let log = Log {
        entries: Vec::new(rt.alloc()),
    };
    let (cell, mut passes) = TurnCell::make(rt.alloc(), log, 2).map_err(|e| e.1)?;
    append_all(&rt, &cell, passes.as_mut_slice());
    let log = cell.close(passes);
    assert_eq!(rt; log.entries.len(), 2000);
    for number in 0..2 {
        let mut next = number;
        for entry in &log.entries {
            if entry.0 == number {
                assert_eq!(rt; entry.1, next);
                next = next.wrapping_add(2);
            }
        }
        assert_eq!(rt; next, 2000 + number);
    }
    Ok(())
}

#[test]
fn sixteen_passes(rt: HostRuntime) -> Result<(), Fail> {
    let log = Log {
        entries: Vec::new(rt.alloc()),
    };
    let (cell, mut passes) = TurnCell::make(rt.alloc(), log, 16).map_err(|e| e.1)?;
    append_all(&rt, &cell, passes.as_mut_slice());
    let log = cell.close(passes);
    assert_eq!(rt; log.entries.len(), 16000);
    let mut counts = [0u32; 16];
    for entry in &log.entries {
        if entry.0 < 16 {
            let count = counts[entry.0 as usize];
            counts[entry.0 as usize] = count.wrapping_add(1);
        }
    }
    assert_eq!(rt; counts, [1000; 16]);
    Ok(())
}
