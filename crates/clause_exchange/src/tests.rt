//! What no clause says: that a lemma that was offered arrives.
use crate::{Exchange, Post};
use prefix_jobs::Lemma;
use std::process::Abort;
use std::sync::Wait;
use std::test::Fail;

fn sent<T: Send>(value: T) -> T {
    value
}

/// Fetches this lemma, whose one literal is told.
fn fetch_literal(rt: &(impl Abort + Wait), post: &mut Post, literal: i32) {
    let lemma = post.fetch(rt).expect(rt, "a lemma was offered");
    assert!(rt; lemma.len == 1);
    assert_eq!(rt; lemma.lits[0], literal);
}

#[test]
fn a_lemma_that_was_offered_is_fetched_once(rt: HostRuntime) -> Result<(), Fail> {
    let mut posts = Exchange::make(rt.alloc(), 2)?;
    let mut second = sent(posts.pop().ok_or("two")?);
    let mut first = posts.pop().ok_or("two")?;
    first.offer(Lemma::of(&[2]));
    fetch_literal(&rt, &mut second, 2);
    assert!(rt; second.fetch(&rt).is_none());
    assert!(rt; first.fetch(&rt).is_none());
    Ok(())
}

#[test]
fn a_lemma_goes_to_each_of_the_others(rt: HostRuntime) -> Result<(), Fail> {
    let mut posts = Exchange::make(rt.alloc(), 16)?;
    assert_eq!(rt; posts.len(), 16);
    posts[3].offer(Lemma::of(&[-5]));
    for place in 0..posts.len() {
        if place != 3 {
            fetch_literal(&rt, &mut posts[place], -5);
        }
        assert!(rt; posts[place].fetch(&rt).is_none());
    }
    Ok(())
}

#[test]
fn a_full_post_is_passed_over(rt: HostRuntime) -> Result<(), Fail> {
    let mut posts = Exchange::make(rt.alloc(), 2)?;
    let mut second = posts.pop().ok_or("two")?;
    let mut first = posts.pop().ok_or("two")?;
    for literal in 1..300 {
        first.offer(Lemma::of(&[literal]));
    }
    for literal in 1..257 {
        fetch_literal(&rt, &mut second, literal);
    }
    assert!(rt; second.fetch(&rt).is_none());
    Ok(())
}
