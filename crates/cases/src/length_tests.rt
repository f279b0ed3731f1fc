// Sums, opposites, orders and measures around zero and at both ends of the range.
use crate::samples::{steps, strict};
use lengths::grid::Grid;
use lengths::length::Length;
use lengths::strict::Strict;

const LAST: i64 = 9_223_372_036_854_775_807;

const FIRST: i64 = -9_223_372_036_854_775_808;

#[test]
fn grid_sums(rt: HostRuntime) {
    let table = [
        (0, 0, 0),
        (1, -1, 0),
        (-1, 0, -1),
        (5, -7, -2),
        (LAST, 0, LAST),
        (LAST, 1, LAST),
        (FIRST, -1, FIRST),
        (FIRST, FIRST, FIRST),
        (LAST, FIRST, -1),
    ];
    for (a, b, sum) in table {
        assert_eq!(rt; steps(a).sum(steps(b)), steps(sum));
        assert_eq!(rt; steps(b).sum(steps(a)), steps(sum));
    }
}

#[test]
fn grid_opposites_and_measures(rt: HostRuntime) {
    let table = [
        (0, 0, 0u64),
        (1, -1, 1),
        (-1, 1, 1),
        (LAST, -9_223_372_036_854_775_807, 9_223_372_036_854_775_807),
        (FIRST, LAST, 9_223_372_036_854_775_808),
    ];
    for (a, opposite, measure) in table {
        assert_eq!(rt; steps(a).opposite(), steps(opposite));
        assert_eq!(rt; steps(a).measure(), measure);
    }
    assert_eq!(rt; <Grid as Length>::far(), steps(1_000_000_000_001));
}

// Whether each length is at most itself and those after it, and no others.
fn rise<L: Length>(lengths: &[L]) -> bool {
    for (i, a) in lengths.iter().enumerate() {
        for (j, b) in lengths.iter().enumerate() {
            if a.at_most(*b) != (i <= j) {
                return false;
            }
        }
    }
    true
}

#[test]
fn grid_orders(rt: HostRuntime) {
    let rising = [steps(FIRST), steps(-1), steps(0), steps(1), steps(LAST)];
    assert!(rt; rise(&rising));
}

#[test]
fn strict_sums_and_opposites(rt: HostRuntime) {
    assert_eq!(rt; strict(3, 0).sum(strict(2, 1)), strict(5, 1));
    assert_eq!(rt; strict(LAST, -1).sum(strict(1, 1)), strict(LAST, 0));
    assert_eq!(rt; strict(0, FIRST).sum(strict(-1, -1)), strict(-1, FIRST));
    assert_eq!(rt; strict(5, -2).opposite(), strict(-5, 2));
    assert_eq!(rt; strict(FIRST, 0).opposite(), strict(LAST, 0));
    assert_eq!(rt; strict(-3, 2).measure(), 3);
    assert_eq!(rt; strict(3, FIRST).measure(), 9_223_372_036_854_775_808);
    assert_eq!(rt; <Strict as Length>::far(), strict(1_000_000_000_001, 0));
}

#[test]
fn strict_orders(rt: HostRuntime) {
    let rising = [
        strict(FIRST, LAST),
        strict(-1, 5),
        strict(0, -1),
        strict(0, 0),
        strict(0, 1),
        strict(1, FIRST),
        strict(LAST, 0),
    ];
    assert!(rt; rise(&rising));
}
