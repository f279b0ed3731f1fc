// The inverter: its boxes, and its marks as they were drawn by hand.
ghost use Rattle.std.specs.Prelude.{◌≡◌, ◌<◌, ◌<ℤ◌, ◌≤◌, map};
ghost use Rattle.lengths.specs.Grid.{grid};
ghost use Rattle.boxes.specs.Held.{all_figures};
ghost use Rattle.inverter.specs.Layout.{figures, hand_drawn_steps, inverter_figures};

use boxes::figures::Figures;
use boxes::layout_box::LayoutBox;
use lengths::grid::Grid;

// Mark 0 is the left border of the cell; each box has two marks of its own.
pub const MARKS: usize = 13;

// Grid steps for one lambda.
pub const FACTOR: u32 = 10;

// A length of so many grid steps.
pub fn steps(steps: i64) -> Grid
    ensures { result ≡ grid steps }
{
    Grid { steps }
}

// The box of figures that are in order.
fn made(layer: u8, left: u16, right: u16, bottom: i32, top: i32) -> LayoutBox
    requires marks { left < right }
    requires span { bottom <ℤ top }
    requires layer { layer ≤ 2 }
    ensures { result.figures ≡ figures layer left right bottom top }
{
    let figures = Figures {
        layer,
        left,
        right,
        bottom,
        top,
    };
    LayoutBox::new(figures).unwrap()
}

// From left to right: the n-well around the p-channel half above, the n-channel half below, and the polysilicon gate
// across both.
pub fn inverter_boxes() -> [LayoutBox; 6]
    ensures { all_figures result ≡ inverter_figures }
{
    [
        made(0, 1, 2, 340, 800),
        made(1, 3, 4, 400, 740),
        made(1, 5, 6, 60, 240),
        made(2, 7, 8, 0, 800),
        made(1, 9, 10, 400, 740),
        made(1, 11, 12, 60, 240),
    ]
}

// Where the marks lay when the cell was drawn by hand.
pub fn hand_drawn_row() -> [Grid; MARKS]
    ensures { result ≡ map grid hand_drawn_steps }
{
    [
        steps(0),
        steps(20),
        steps(320),
        steps(90),
        steps(130),
        steps(90),
        steps(130),
        steps(160),
        steps(180),
        steps(195),
        steps(260),
        steps(195),
        steps(260),
    ]
}
