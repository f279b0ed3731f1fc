// Sources at and above the limit of places, and the check of a rule.
use crate::samples::{rule, steps};
use rules::empty::Empty;
use rules::fault::RuleFault;
use rules::joined::Joined;
use rules::listed::Listed;
use rules::rule::Rule;
use rules::source::Source;
use std::test::Fail;

#[test]
fn listed_limits(rt: HostRuntime) -> Result<(), Fail> {
    let most = vec![in rt.alloc(); rule(0, 1, 7); 8192]?;
    let listed = Listed { rules: &most };
    assert_eq!(rt; listed.places(), 8192);
    assert_eq!(rt; listed.rule(8191), Some(rule(0, 1, 7)));
    assert_eq!(rt; listed.rule(8192), None);
    let more = vec![in rt.alloc(); rule(0, 1, 7); 8193]?;
    let listed = Listed { rules: &more };
    assert_eq!(rt; listed.places(), 8193);
    assert_eq!(rt; listed.rule(0), None);
    assert_eq!(rt; listed.rule(8192), None);
    Ok(())
}

#[test]
fn joined_order(rt: HostRuntime) {
    let joined = Joined {
        first: Listed {
            rules: &[rule(0, 1, 1), rule(0, 2, 2)],
        },
        second: Listed {
            rules: &[rule(1, 2, 3)],
        },
    };
    assert_eq!(rt; joined.places(), 3);
    assert_eq!(rt; joined.rule(0), Some(rule(0, 1, 1)));
    assert_eq!(rt; joined.rule(1), Some(rule(0, 2, 2)));
    assert_eq!(rt; joined.rule(2), Some(rule(1, 2, 3)));
    assert_eq!(rt; joined.rule(3), None);
}

#[test]
fn joined_limits(rt: HostRuntime) -> Result<(), Fail> {
    let most = vec![in rt.alloc(); rule(0, 1, 7); 8192]?;
    let one = [rule(1, 2, 3)];
    let full = Joined {
        first: Listed { rules: &most },
        second: Empty,
    };
    assert_eq!(rt; full.places(), 8192);
    assert_eq!(rt; full.rule(8191), Some(rule(0, 1, 7)));
    let over = Joined {
        first: Listed { rules: &most },
        second: Listed { rules: &one },
    };
    assert_eq!(rt; over.places(), 8193);
    assert_eq!(rt; over.rule(0), None);
    Ok(())
}

#[test]
fn rule_checks(rt: HostRuntime) {
    assert_eq!(rt; rule(0, 3, 1_000_000).check(4), Ok(()));
    assert_eq!(rt; rule(0, 3, -1_000_000).check(4), Ok(()));
    assert_eq!(rt; rule(0, 4, 1_000_001).check(4), Err(RuleFault::NoSuchMark));
    assert_eq!(rt; rule(4, 4, 0).check(4), Err(RuleFault::NoSuchMark));
    assert_eq!(rt; rule(3, 3, 1_000_001).check(4), Err(RuleFault::SameMark));
    assert_eq!(rt; rule(0, 3, 1_000_001).check(4), Err(RuleFault::GapTooLarge));
    assert_eq!(rt; Rule::maximum(1, 3, steps(5)), rule(3, 1, -5));
}
