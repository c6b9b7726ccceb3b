//! What no clause says: the calls on worked examples.
use crate::{Lemma, Number};

#[test]
fn the_place_counts_before_the_index(rt: HostRuntime) {
    let low = Number { place: 1, index: 9 };
    let high = Number { place: 2, index: 0 };
    assert!(rt; low.before(high));
    assert!(rt; !high.before(low));
    assert!(rt; !low.before(low));
    assert!(rt;
        low.before(Number {
            place: 1,
            index: 10
        })
    );
}

#[test]
fn a_lemma_keeps_its_literals(rt: HostRuntime) {
    assert_eq!(rt; Lemma::of(&[3, -1, 2]).lits(), [3, -1, 2].as_slice());
    assert_eq!(rt; Lemma::of(&[]).lits(), [].as_slice());
    assert_eq!(rt; Lemma::of(&[1, 2, 3, 4, 5, 6, 7, 8]).lits().len(), 8);
}
