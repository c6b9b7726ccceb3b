//! Ten thousand drawn formulas, listed by the engine at once and in pieces, against the plain
//! lister: the cubes have to hold just its assignments of the shown variables, each of them once.
ghost use Rattle.std.specs.Prelude.{IfOk};
ghost use Rattle.sat_terms.specs.Subjects.{IsSubject};

use crate::counts::Counts;
use crate::drawn::{Draws, draw_text};
use crate::one_job::list_cubes;
use crate::pieces::{Cuts, count_in_pieces};
use crate::stops::count_plain;
use dimacs_front::read_subject;
use fault_io::BytesIn;
use sat_terms::Subject;
use std::alloc::{AllocError, Global};
use std::process::Abort;
use std::test::Fail;

/// A drawn subject.
fn draw_subject(rt: &impl Abort, alloc: Global, draws: &mut Draws) -> Result<Subject, AllocError>
    ensures { IfOk result (λ subject. IsSubject subject.formula.variables subject.formula.clauses
        subject.shown subject.under) }
{
    let text = draw_text(alloc, draws)?;
    let mut source = BytesIn::make(text, 65_536, Vec::new(alloc));
    let input = read_subject(alloc, &mut source).expect(rt, "a text");
    Ok(input.subject)
}

/// What the engine counts in one job.
fn count_at_once(alloc: Global, subject: &Subject) -> Result<Counts, AllocError>
    requires { IsSubject subject.now.formula.variables subject.now.formula.clauses
        subject.now.shown subject.now.under }
{
    let shown = subject.shown.as_slice();
    let cubes = list_cubes(alloc, subject)?;
    let mut counts = Counts::none(alloc, shown)?;
    counts.count_all(shown, &cubes);
    Ok(counts)
}

/// Whether the cubes of each way to list the subject in pieces hold just these assignments.
fn agree_in_pieces(
    rt: &impl Abort,
    alloc: Global,
    subject: &Subject,
    draws: Draws,
    plain: &[u32],
) -> Result<bool, AllocError>
    requires { IsSubject subject.now.formula.variables subject.now.formula.clauses
        subject.now.shown subject.now.under }
{
    let chain = count_in_pieces(rt, alloc, subject, Cuts::EachLeaf)?;
    let gifts = count_in_pieces(rt, alloc, subject, Cuts::EachGift)?;
    let drawn = count_in_pieces(rt, alloc, subject, Cuts::Drawn(draws))?;
    Ok(chain.as_slice() == plain && gifts.as_slice() == plain && drawn.as_slice() == plain)
}

/// Lists one drawn formula in all ways. Answers whether it has an assignment to list.
fn compare(rt: &impl Abort, alloc: Global, start: u64) -> Result<bool, AllocError> {
    let mut draws = Draws::from(start);
    let subject = draw_subject(rt, alloc, &mut draws)?;
    let plain = count_plain(alloc, &subject)?;
    let whole = count_at_once(alloc, &subject)?;
    assert!(rt; plain.is_set(), "formula {start}, by the plain lister");
    assert!(rt;
        whole.as_slice() == plain.as_slice(),
        "formula {start}, at once"
    );
    let agrees = agree_in_pieces(rt, alloc, &subject, draws, plain.as_slice())?;
    assert!(rt; agrees, "formula {start}, in pieces");
    Ok(!plain.is_empty())
}

#[test]
fn drawn_formulas_are_listed_right_at_once_and_in_pieces(rt: HostRuntime) -> Result<(), Fail> {
    let mut listed: u32 = 0;
    for number in 0..10_000u64 {
        if compare(&rt, rt.alloc(), number.wrapping_mul(0x9e37_79b9_7f4a_7c15))? {
            listed = listed.saturating_add(1);
        }
    }
    assert!(rt;
        listed > 5_000,
        "only {listed} of the formulas have a solution"
    );
    Ok(())
}
