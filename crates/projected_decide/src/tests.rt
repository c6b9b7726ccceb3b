//! The order of decisions on small trails.
use crate::order::Order;
use chrono_trail::{Kind, Trail};
use std::test::Fail;

/// Variables 2 and 4 of 4 are shown.
const SHOWN: [u32; 2] = [2, 4];

#[test]
fn shown_variables_come_first(rt: HostRuntime) -> Result<(), Fail> {
    let mut trail = Trail::make(rt.alloc(), 4)?;
    let mut order = Order::make(rt.alloc(), 4, &SHOWN)?;
    assert_eq!(rt; order.next(&trail), Some(-2));
    assert_eq!(rt; order.next(&trail), Some(-2));
    trail.decide(-2);
    assert_eq!(rt; order.next(&trail), Some(-4));
    Ok(())
}

#[test]
fn hidden_variables_follow(rt: HostRuntime) -> Result<(), Fail> {
    let mut trail = Trail::make(rt.alloc(), 4)?;
    let mut order = Order::make(rt.alloc(), 4, &SHOWN)?;
    trail.decide(-2);
    trail.decide(-4);
    assert_eq!(rt; order.next(&trail), Some(-1));
    order.put_back_all();
    trail.decide(-1);
    assert_eq!(rt; order.next(&trail), Some(-3));
    Ok(())
}

#[test]
fn implied_variables_are_passed(rt: HostRuntime) -> Result<(), Fail> {
    let mut trail = Trail::make(rt.alloc(), 4)?;
    let mut order = Order::make(rt.alloc(), 4, &SHOWN)?;
    trail.decide(3);
    trail.assign(2, 0, Kind::Implied(0));
    trail.assign(1, 1, Kind::Implied(1));
    assert_eq!(rt; order.next(&trail), Some(-4));
    Ok(())
}

#[test]
fn where_all_are_assigned_nothing_is_decided(rt: HostRuntime) -> Result<(), Fail> {
    let mut trail = Trail::make(rt.alloc(), 2)?;
    let mut order = Order::make(rt.alloc(), 2, &[2])?;
    trail.decide(-2);
    trail.assign(1, 0, Kind::Implied(0));
    assert_eq!(rt; order.next(&trail), None);
    assert_eq!(rt; order.next(&trail), None);
    Ok(())
}

/// The literal 4 stands on level 1 and survives, although it is younger than the second decision.
#[test]
fn what_goes_with_its_level_is_decided_again(rt: HostRuntime) -> Result<(), Fail> {
    let mut trail = Trail::make(rt.alloc(), 5)?;
    let mut order = Order::make(rt.alloc(), 5, &[2, 3, 4])?;
    trail.decide(-2);
    trail.decide(-3);
    trail.assign(4, 1, Kind::Implied(0));
    assert_eq!(rt; order.next(&trail), Some(-1));
    order.put_back_above(&trail, 1);
    trail.backtrack(1);
    assert_eq!(rt; order.next(&trail), Some(-3));
    Ok(())
}

#[test]
fn putting_back_a_later_variable_changes_nothing(rt: HostRuntime) -> Result<(), Fail> {
    let mut trail = Trail::make(rt.alloc(), 4)?;
    let mut order = Order::make(rt.alloc(), 4, &SHOWN)?;
    order.put_back(3);
    assert_eq!(rt; order.next(&trail), Some(-2));
    trail.decide(-2);
    assert_eq!(rt; order.next(&trail), Some(-4));
    order.put_back_all();
    trail.clear();
    assert_eq!(rt; order.next(&trail), Some(-2));
    Ok(())
}

#[test]
fn with_no_variables_nothing_is_decided(rt: HostRuntime) -> Result<(), Fail> {
    let trail = Trail::make(rt.alloc(), 0)?;
    let mut order = Order::make(rt.alloc(), 0, &[])?;
    assert_eq!(rt; order.next(&trail), None);
    Ok(())
}

#[test]
fn with_none_shown_all_are_hidden_and_rise(rt: HostRuntime) -> Result<(), Fail> {
    let mut trail = Trail::make(rt.alloc(), 2)?;
    let mut order = Order::make(rt.alloc(), 2, &[])?;
    assert_eq!(rt; order.next(&trail), Some(-1));
    trail.decide(1);
    assert_eq!(rt; order.next(&trail), Some(-2));
    Ok(())
}
