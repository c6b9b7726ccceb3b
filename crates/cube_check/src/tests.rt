//! What the contracts do not say: that the calls succeed, and verdicts and their texts byte for
//! byte. Checks of whole met texts are tried by the run.
ghost use Rattle.std.specs.Prelude.{IfOk};
ghost use Rattle.sat_terms.specs.Subjects.{IsSubject};

use crate::{Met, Verdict, check_listing, write_verdict};
use fault_io::BytesOut;
use sat_terms::{Clause, Cube, Formula, Items, Subject};
use std::alloc::{AllocError, Global};
use std::test::Fail;

/// A subject without variables, whose one clause, if there is one, is empty.
fn subject(alloc: Global, has_clause: bool) -> Result<Subject, AllocError>
    ensures { IfOk result (λ s. IsSubject s.formula.variables s.formula.clauses s.shown s.under) }
{
    let mut clauses = Vec::new(alloc);
    if has_clause {
        clauses.push(Clause::from_vec(Vec::new(alloc)))?;
    }
    Ok(Subject {
        formula: Formula {
            variables: 0,
            clauses: Items::from_vec(clauses),
        },
        shown: Items::from_vec(Vec::new(alloc)),
        under: Cube::from_vec(Vec::new(alloc)),
    })
}

/// The verdict on so many empty cubes, at most two.
fn verdict(alloc: Global, has_clause: bool, two: bool) -> Result<Verdict, AllocError> {
    let subject = subject(alloc, has_clause)?;
    let one = Met {
        cube: Cube::from_vec(Vec::new(alloc)),
        hidden: Cube::from_vec(Vec::new(alloc)),
    };
    let other = Met {
        cube: Cube::from_vec(Vec::new(alloc)),
        hidden: Cube::from_vec(Vec::new(alloc)),
    };
    if two {
        check_listing(alloc, &subject, &[one, other])
    } else {
        check_listing(alloc, &subject, &[one])
    }
}

#[test]
fn the_empty_cube_is_right_alone_and_where_no_clause_is(rt: HostRuntime) -> Result<(), Fail> {
    assert_eq!(rt; verdict(rt.alloc(), false, false)?, Verdict::Right);
    assert_eq!(rt;
        verdict(rt.alloc(), true, true)?,
        Verdict::NotMet { cube: 1, clause: 1 }
    );
    assert_eq!(rt;
        verdict(rt.alloc(), false, true)?,
        Verdict::Overlap {
            first: 1,
            second: 2
        }
    );
    Ok(())
}

/// Whether the text of a verdict is this.
fn says(alloc: Global, verdict: Verdict, text: &[u8]) -> Result<bool, AllocError> {
    let mut out = BytesOut::make(alloc, 100, 4, Vec::new(alloc))?;
    Ok(write_verdict(verdict, &mut out).is_ok() && out.bytes() == text)
}

#[test]
fn a_verdict_is_one_line(rt: HostRuntime) -> Result<(), Fail> {
    let alloc = rt.alloc();
    assert!(rt; says(alloc, Verdict::Right, b"s RIGHT\n")?);
    let miss = Verdict::NotMet {
        cube: 10,
        clause: 3,
    };
    assert!(rt; says(alloc, miss, b"s NOTMET 10 3\n")?);
    let overlap = Verdict::Overlap {
        first: 2,
        second: usize::MAX,
    };
    assert!(rt; says(alloc, overlap, b"s OVERLAP 2 18446744073709551615\n")?);
    Ok(())
}
