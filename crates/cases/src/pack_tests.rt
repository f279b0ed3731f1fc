// Trials and compactions of small cells whose answers are known by hand.
use crate::samples::{figures, four_marks, steps, strict};
use boxes::layout_box::LayoutBox;
use boxes::source::BoxSource;
use cell::cell::Cell;
use cell::editing::{Edit, apply};
use cell::record::Record;
use faults::fault::{CompactionFault, SourceFault, TrialFault};
use lengths::grid::Grid;
use lengths::strict::Strict;
use rules::empty::Empty;
use rules::fault::RuleFault;
use rules::listed::Listed;
use rules::rule::Rule;
use std::test::Fail;

#[test]
fn four_marks_packed_and_tried(rt: HostRuntime) {
    let mut records = [Record::<Grid>::blank(); 8];
    let mut cell = Cell::new(4, &mut records);
    four_marks(&mut cell);
    let mut row = [steps(77); 5];
    let mut cycle = [9u32; 5];
    assert_eq!(rt; cell.compact(&Empty, &mut row, &mut cycle), Ok(()));
    assert_eq!(rt; row, [steps(0), steps(4), steps(7), steps(9), steps(77)]);
    assert_eq!(rt; cycle, [9, 9, 9, 9, 9]);
    assert_eq!(rt;
        cell.try_row(&Empty, &[steps(0), steps(5), steps(8), steps(9)]),
        Ok(0)
    );
    assert_eq!(rt;
        cell.try_row(&Empty, &[steps(0), steps(4), steps(7), steps(8)]),
        Ok(3)
    );
}

#[test]
fn four_marks_over_constrained(rt: HostRuntime) {
    let mut records = [Record::<Grid>::blank(); 8];
    let mut cell = Cell::new(4, &mut records);
    four_marks(&mut cell);
    apply(&mut cell, Edit::Enter(5, Rule::maximum(0, 2, steps(6))));
    let mut row = [steps(77); 5];
    let mut cycle = [9u32; 5];
    assert_eq!(rt;
        cell.compact(&Empty, &mut row, &mut cycle),
        Err(CompactionFault::OverConstrained(4))
    );
    assert_eq!(rt; row, [steps(0), steps(0), steps(0), steps(0), steps(77)]);
    assert_eq!(rt; cycle, [3, 4, 2, 5, 9]);
    apply(&mut cell, Edit::Withdraw(5));
    apply(&mut cell, Edit::Enter(5, Rule::maximum(0, 2, steps(7))));
    assert_eq!(rt; cell.compact(&Empty, &mut row, &mut cycle), Ok(()));
    assert_eq!(rt; row, [steps(0), steps(4), steps(7), steps(9), steps(77)]);
}

#[test]
fn two_marks(rt: HostRuntime) {
    let mut records = [Record::<Grid>::blank(); 1];
    let mut cell = Cell::new(2, &mut records);
    apply(&mut cell, Edit::Enter(8, Rule::maximum(0, 1, steps(-1))));
    let mut row = [steps(5); 2];
    let mut cycle = [0u32; 2];
    assert_eq!(rt;
        cell.compact(&Empty, &mut row, &mut cycle),
        Err(CompactionFault::OverConstrained(2))
    );
    assert_eq!(rt; cycle, [70_001, 8]);
    apply(&mut cell, Edit::Withdraw(8));
    apply(&mut cell, Edit::Enter(8, Rule::maximum(0, 1, steps(0))));
    assert_eq!(rt; cell.compact(&Empty, &mut row, &mut cycle), Ok(()));
    assert_eq!(rt; row, [steps(0), steps(0)]);
}

#[test]
fn strict_marks(rt: HostRuntime) {
    let mut records = [Record::<Strict>::blank(); 3];
    let mut cell = Cell::new(3, &mut records);
    apply(&mut cell, Edit::Enter(1, Rule::minimum(0, 1, strict(3, 0))));
    apply(&mut cell, Edit::Enter(2, Rule::minimum(1, 2, strict(2, 1))));
    apply(&mut cell, Edit::Enter(3, Rule::maximum(0, 2, strict(5, 0))));
    let mut row = [strict(1, 1); 3];
    let mut cycle = [0u32; 3];
    assert_eq!(rt;
        cell.compact(&Empty, &mut row, &mut cycle),
        Err(CompactionFault::OverConstrained(3))
    );
    apply(&mut cell, Edit::Withdraw(3));
    apply(&mut cell, Edit::Enter(3, Rule::maximum(0, 2, strict(5, 1))));
    assert_eq!(rt; cell.compact(&Empty, &mut row, &mut cycle), Ok(()));
    assert_eq!(rt; row, [strict(0, 0), strict(3, 0), strict(5, 1)]);
}

#[test]
fn packed_boxes(rt: HostRuntime) -> Result<(), Fail> {
    let gate = LayoutBox::new(figures(2, 1, 2, 0, 10))?;
    let beside = LayoutBox::new(figures(1, 3, 4, 5, 20))?;
    let above = LayoutBox::new(figures(1, 3, 4, 10, 20))?;
    let cell: Cell<'_, Grid> = Cell::new(5, &mut []);
    let mut row = [steps(1); 5];
    let mut cycle = [0u32; 5];
    let source = BoxSource::from_boxes(2, &[gate, beside]);
    assert_eq!(rt; cell.compact(&source, &mut row, &mut cycle), Ok(()));
    assert_eq!(rt; row, [steps(0), steps(0), steps(4), steps(8), steps(16)]);
    let source = BoxSource::from_boxes(2, &[gate, above]);
    assert_eq!(rt; cell.compact(&source, &mut row, &mut cycle), Ok(()));
    assert_eq!(rt; row, [steps(0), steps(0), steps(4), steps(0), steps(8)]);
    Ok(())
}

#[test]
fn refusals_in_order(rt: HostRuntime) {
    let cell: Cell<'_, Grid> = Cell::new(2, &mut []);
    let unfit = [
        Rule::minimum(0, 1, steps(1)),
        Rule::minimum(1, 1, steps(1)),
        Rule::minimum(0, 2, steps(1)),
    ];
    let bad = SourceFault::UnfitPlace(1, RuleFault::SameMark);
    assert_eq!(rt;
        cell.try_row(&Listed { rules: &unfit }, &[]),
        Err(TrialFault::BadSource(bad))
    );
    assert_eq!(rt;
        cell.try_row(&Empty, &[steps(0)]),
        Err(TrialFault::ShortRow)
    );
    assert_eq!(rt;
        cell.try_row(&Empty, &[steps(1), steps(0)]),
        Err(TrialFault::BadMark(0))
    );
    assert_eq!(rt;
        cell.try_row(&Empty, &[steps(0), steps(10_000_000_000_000)]),
        Ok(0)
    );
    assert_eq!(rt;
        cell.try_row(&Empty, &[steps(0), steps(10_000_000_000_001)]),
        Err(TrialFault::BadMark(1))
    );
    let mut row = [steps(3), steps(4)];
    assert_eq!(rt;
        cell.compact(&Listed { rules: &unfit }, &mut row, &mut [7]),
        Err(CompactionFault::BadSource(bad))
    );
    assert_eq!(rt;
        cell.compact(&Empty, &mut [steps(3)], &mut [7]),
        Err(CompactionFault::ShortRow)
    );
    assert_eq!(rt;
        cell.compact(&Empty, &mut row, &mut [7]),
        Err(CompactionFault::ShortList)
    );
    assert_eq!(rt; row, [steps(3), steps(4)]);
}
