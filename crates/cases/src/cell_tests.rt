// Entering, withdrawing and looking up rules, at both kinds of length.
use crate::samples::{rule, strict};
use cell::cell::Cell;
use cell::cell::making::check_marks;
use cell::editing::{Edit, edit_all};
use cell::origin::{Origin, UnusedNumber};
use cell::record::Record;
use faults::fault::{EntryFault, MarksFault, WithdrawalFault};
use lengths::grid::Grid;
use rules::fault::RuleFault;
use rules::rule::Rule;

fn record(tag: u16) -> Record<Grid> {
    Record {
        tag,
        rule: rule(0, 1, 7),
    }
}

#[test]
fn mark_counts(rt: HostRuntime) {
    assert_eq!(rt; check_marks(0), Err(MarksFault::MarkCount));
    assert_eq!(rt; check_marks(1), Ok(()));
    assert_eq!(rt; check_marks(256), Ok(()));
    assert_eq!(rt; check_marks(257), Err(MarksFault::MarkCount));
    let mut records = [record(9)];
    assert_eq!(rt; Cell::new(257, &mut records).marks(), 1);
    assert_eq!(rt; records[0], record(9));
}

#[test]
fn refusals_in_order(rt: HostRuntime) {
    let mut records = [record(0); 1];
    let mut cell = Cell::new(3, &mut records);
    assert_eq!(rt; cell.enter(0, rule(3, 3, 0)), Err(EntryFault::NoTag));
    assert_eq!(rt;
        cell.enter(1, rule(3, 3, 0)),
        Err(EntryFault::Unfit(RuleFault::NoSuchMark))
    );
    assert_eq!(rt;
        cell.enter(1, rule(2, 2, 1_000_001)),
        Err(EntryFault::Unfit(RuleFault::SameMark))
    );
    assert_eq!(rt;
        cell.enter(1, rule(0, 2, 1_000_001)),
        Err(EntryFault::Unfit(RuleFault::GapTooLarge))
    );
    assert_eq!(rt; cell.enter(1, rule(0, 2, 5)), Ok(()));
    assert_eq!(rt; cell.enter(1, rule(0, 1, 6)), Err(EntryFault::TagInForce));
    assert_eq!(rt; cell.enter(2, rule(0, 1, 6)), Err(EntryFault::Full));
    assert_eq!(rt; cell.look_up(1), Some(rule(0, 2, 5)));
    assert_eq!(rt; cell.withdraw(0), Err(WithdrawalFault::NoTag));
    assert_eq!(rt; cell.withdraw(2), Err(WithdrawalFault::TagNotInForce));
    assert_eq!(rt; cell.withdraw(1), Ok(()));
    assert_eq!(rt; cell.look_up(1), None);
    assert_eq!(rt; cell.filled(), 0);
}

#[test]
fn last_record_moves(rt: HostRuntime) {
    let mut records = [record(0); 4];
    let edits = [
        Edit::Enter(1, rule(0, 1, 1)),
        Edit::Enter(2, rule(0, 1, 2)),
        Edit::Enter(3, rule(0, 1, 3)),
        Edit::Withdraw(1),
        Edit::Withdraw(4),
        Edit::Withdraw(2),
    ];
    assert_eq!(rt; edit_all(2, &mut records, &edits), 1);
    assert_eq!(rt;
        records[0],
        Record {
            tag: 3,
            rule: rule(0, 1, 3),
        }
    );
    assert_eq!(rt;
        records[1],
        Record {
            tag: 2,
            rule: rule(0, 1, 2),
        }
    );
    assert_eq!(rt;
        records[2],
        Record {
            tag: 3,
            rule: rule(0, 1, 3),
        }
    );
    assert_eq!(rt; records[3], record(0));
}

#[test]
fn strict_rules(rt: HostRuntime) {
    let gap = strict(2, -1);
    let mut records = [Record {
        tag: 0,
        rule: Rule::minimum(0, 0, gap),
    }; 2];
    let mut cell = Cell::new(2, &mut records);
    assert_eq!(rt; cell.enter(5, Rule::maximum(0, 1, gap)), Ok(()));
    assert_eq!(rt; cell.look_up(5), Some(Rule::minimum(1, 0, strict(-2, 1))));
}

#[test]
fn rule_numbers(rt: HostRuntime) {
    let table = [
        (1, Origin::Entered(1)),
        (65_535, Origin::Entered(65_535)),
        (70_001, Origin::Border(1)),
        (99_999, Origin::Border(29_999)),
        (100_000, Origin::Told(0)),
        (108_191, Origin::Told(8_191)),
    ];
    for (number, origin) in table {
        assert_eq!(rt; u32::from(origin), number);
        assert_eq!(rt; Origin::try_from(number), Ok(origin));
    }
    for number in [65_536, 69_999, 165_536] {
        assert_eq!(rt; Origin::try_from(number), Err(UnusedNumber { number }));
    }
}
