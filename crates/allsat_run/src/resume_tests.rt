//! Drawn formulas, each stopped after every number of leaves and in steps of one size, and gone on
//! with from the text of the run before: it is a partition at each stop, and at the end what the
//! plain lister says.
ghost use Rattle.std.specs.Prelude.{IfOk};
ghost use Rattle.sat_terms.specs.Subjects.{IsSubject};

use crate::Status;
use crate::counts::Counts;
use crate::drawn::{Draws, draw_text};
use crate::stops::{count_plain, run_once};
use dimacs_front::read_subject;
use fault_io::BytesIn;
use sat_terms::Subject;
use std::alloc::{AllocError, Global};
use std::process::Abort;
use std::test::Fail;

/// No drawn formula has so many leaves.
const MANY: u64 = 2_000;

/// The subject of a text.
fn subject_of(rt: &impl Abort, alloc: Global, text: &[u8]) -> Result<Subject, AllocError>
    ensures { IfOk result (λ subject. IsSubject subject.formula.variables subject.formula.clauses
        subject.shown subject.under) }
{
    let mut source = BytesIn::make(text.to_vec(alloc)?, 65_536, Vec::new(alloc));
    let input = read_subject(alloc, &mut source).expect(rt, "a text");
    Ok(input.subject)
}

/// What is wanted of a text.
pub(crate) fn wanted_of(rt: &impl Abort, alloc: Global, text: &[u8]) -> Result<Counts, AllocError> {
    let subject = subject_of(rt, alloc, text)?;
    count_plain(alloc, &subject)
}

/// Stops after so many leaves, and goes on to the end. Whether it was at the end already.
fn stop_and_go_on(
    rt: &impl Abort,
    alloc: Global,
    text: &[u8],
    wanted: &Counts,
    budget: u64,
) -> Result<bool, AllocError> {
    let stop = run_once(rt, alloc, text.to_vec(alloc)?, Some(budget))?;
    assert!(rt; stop.is_right(wanted, Some(budget)), "a budget of {budget}");
    if stop.status == Status::Finished {
        return Ok(true);
    }
    let rest = run_once(rt, alloc, stop.into_text(), None)?;
    assert!(rt; rest.status == Status::Finished);
    assert!(rt; rest.is_right(wanted, None), "after a budget of {budget}");
    Ok(false)
}

/// Stops after every number of leaves. Answers at how many it is not at the end yet.
fn stop_everywhere(
    rt: &impl Abort,
    alloc: Global,
    text: &[u8],
    wanted: &Counts,
) -> Result<u64, AllocError> {
    for budget in 1..MANY {
        if stop_and_go_on(rt, alloc, text, wanted, budget)? {
            return Ok(budget - 1);
        }
    }
    panic!(rt; "many leaves")
}

/// Goes on in steps of so many leaves. Answers how often it stopped.
fn go_in_steps(
    rt: &impl Abort,
    alloc: Global,
    text: &[u8],
    wanted: &Counts,
    step: u64,
) -> Result<u64, AllocError> {
    let mut text = text.to_vec(alloc)?;
    for stops in 0..MANY {
        let stop = run_once(rt, alloc, text, Some(step))?;
        assert!(rt; stop.is_right(wanted, Some(step)), "steps of {step}");
        if stop.status == Status::Finished {
            return Ok(stops);
        }
        text = stop.into_text();
    }
    panic!(rt; "many steps")
}

/// The text of one drawn formula.
fn drawn(alloc: Global, number: u64) -> Result<Vec<u8>, AllocError> {
    let mut draws = Draws::from(number.wrapping_mul(0x9e37_79b9_7f4a_7c15));
    draw_text(alloc, &mut draws)
}

#[test]
fn a_run_may_stop_after_any_number_of_leaves(rt: HostRuntime) -> Result<(), Fail> {
    let alloc = rt.alloc();
    let mut stops: u64 = 0;
    for number in 0..10_000u64 {
        let text = drawn(alloc, number)?;
        let wanted = wanted_of(&rt, alloc, &text)?;
        stops = stops.saturating_add(stop_everywhere(&rt, alloc, &text, &wanted)?);
    }
    assert!(rt; stops > 20_000, "{stops} stops");
    Ok(())
}

#[test]
fn a_run_may_go_on_in_steps_of_any_size(rt: HostRuntime) -> Result<(), Fail> {
    let alloc = rt.alloc();
    let mut stops: u64 = 0;
    for number in 10_000..20_000u64 {
        let text = drawn(alloc, number)?;
        let wanted = wanted_of(&rt, alloc, &text)?;
        for step in [1u64, 2, 3, 7] {
            stops = stops.saturating_add(go_in_steps(&rt, alloc, &text, &wanted, step)?);
        }
    }
    assert!(rt; stops > 20_000, "{stops} stops");
    Ok(())
}
