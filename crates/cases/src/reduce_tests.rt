// Reductions of small cells whose answers are known by hand.
use crate::samples::{four_marks, rule, steps, strict};
use cell::cell::Cell;
use cell::editing::{Edit, apply};
use cell::record::Record;
use faults::fault::ReductionFault;
use lengths::grid::Grid;
use lengths::length::Length;
use lengths::strict::Strict;
use rules::empty::Empty;
use rules::rule::Rule;

// Their distances, row by row, in a table with one entry more.
fn four_mark_distances() -> [Grid; 17] {
    let none = Grid::far().opposite();
    [
        steps(0),
        steps(4),
        steps(7),
        steps(9),
        none,
        steps(0),
        steps(3),
        none,
        none,
        none,
        steps(0),
        none,
        none,
        steps(-5),
        steps(-2),
        steps(0),
        steps(77),
    ]
}

#[test]
fn four_marks_reduced(rt: HostRuntime) {
    let mut records = [Record::<Grid>::blank(); 8];
    let mut cell = Cell::new(4, &mut records);
    four_marks(&mut cell);
    let mut table = [steps(77); 17];
    let mut list = [rule(7, 7, 7); 4];
    assert_eq!(rt; cell.reduce(&Empty, &mut table, &mut list), Ok(3));
    assert_eq!(rt;
        list,
        [rule(0, 3, 9), rule(1, 2, 3), rule(3, 1, -5), rule(7, 7, 7)]
    );
    assert_eq!(rt; table, four_mark_distances());
}

#[test]
fn tied_marks_make_a_ring(rt: HostRuntime) {
    let mut records = [Record::<Grid>::blank(); 8];
    let mut cell = Cell::new(4, &mut records);
    four_marks(&mut cell);
    apply(&mut cell, Edit::Enter(5, Rule::maximum(0, 2, steps(7))));
    let mut table = [steps(77); 16];
    let mut list = [rule(7, 7, 7); 4];
    assert_eq!(rt; cell.reduce(&Empty, &mut table, &mut list), Ok(4));
    assert_eq!(rt;
        list,
        [rule(0, 1, 4), rule(1, 2, 3), rule(2, 3, 2), rule(3, 0, -9)]
    );
}

#[test]
fn what_a_refused_reduction_leaves(rt: HostRuntime) {
    let mut records = [Record::<Grid>::blank(); 8];
    let mut cell = Cell::new(4, &mut records);
    four_marks(&mut cell);
    let mut list = [rule(7, 7, 7); 2];
    let mut short = [steps(77); 15];
    assert_eq!(rt;
        cell.reduce(&Empty, &mut short, &mut list),
        Err(ReductionFault::ShortTable)
    );
    assert_eq!(rt; short, [steps(77); 15]);
    let mut table = [steps(77); 17];
    assert_eq!(rt;
        cell.reduce(&Empty, &mut table, &mut list),
        Err(ReductionFault::ShortList(3))
    );
    assert_eq!(rt; table, four_mark_distances());
    apply(&mut cell, Edit::Enter(5, Rule::maximum(0, 2, steps(6))));
    assert_eq!(rt;
        cell.reduce(&Empty, &mut table, &mut list),
        Err(ReductionFault::OverConstrained)
    );
    let mut zeros = [steps(0); 17];
    zeros[16] = steps(77);
    assert_eq!(rt; table, zeros);
    assert_eq!(rt; list, [rule(7, 7, 7); 2]);
}

// Two minima and a maximum of their sum tie all three marks.
#[test]
fn strict_ring(rt: HostRuntime) {
    let mut records = [Record::<Strict>::blank(); 4];
    let mut cell = Cell::new(3, &mut records);
    let _ = cell.enter(1, Rule::minimum(0, 1, strict(3, 0)));
    let _ = cell.enter(2, Rule::minimum(1, 2, strict(2, 1)));
    let _ = cell.enter(3, Rule::maximum(0, 2, strict(5, 1)));
    let mut table = [strict(7, 7); 9];
    let mut list = [Rule::minimum(7, 7, strict(7, 7)); 3];
    assert_eq!(rt; cell.reduce(&Empty, &mut table, &mut list), Ok(3));
    assert_eq!(rt;
        list,
        [
            Rule::minimum(0, 1, strict(3, 0)),
            Rule::minimum(1, 2, strict(2, 1)),
            Rule::minimum(2, 0, strict(-5, -1)),
        ]
    );
}
