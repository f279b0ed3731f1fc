// Making a box source, and giving it boxes.
ghost use Rattle.std.specs.Prelude.{◌≡◌, ℕ, List, [], ◌∷◌, ◌++◌};
ghost use Rattle.boxes.specs.Places.{box_places, TellsPairs};
ghost use Rattle.boxes.specs.Held.{Holds, all_figures, source_places};
ghost use Rattle.boxes.specs.declared.figures.Figures.{Figures};

use crate::figures::Figures;
use crate::layout_box::LayoutBox;
use crate::source::{BOX_LIMIT, BoxSource};

impl BoxSource {
    // A source with no boxes, of so many grid steps for one lambda.
    pub fn new(factor: u32) -> BoxSource
        ensures { Holds result factor [] }
    {
        let blank = Figures {
            layer: 0,
            left: 0,
            right: 0,
            bottom: 0,
            top: 0,
        };
        BoxSource {
            factor,
            count: Some(0),
            rows: [blank; BOX_LIMIT],
        }
    }

    // One box more.
    pub fn give(&mut self, given: LayoutBox)
        ensures holds { (factor : ℕ) (boxes : List Figures) → Holds self.old factor boxes → Holds self.new factor (boxes ++ given.figures ∷ []) }
        ensures places { (factor : ℕ) (boxes : List Figures) → Holds self.new factor boxes → source_places self.new ≡ box_places factor boxes }
    {
        match self.count {
            Some(count) if count < BOX_LIMIT => {
                self.rows[count] = given.figures();
                self.count = Some(count + 1);
            }
            _ => self.count = None,
        }
    }

    // A source that was given these boxes, one after the other.
    pub fn from_boxes(factor: u32, boxes: &[LayoutBox]) -> BoxSource
        ensures holds { Holds result factor (all_figures boxes.now) }
        ensures places { source_places result ≡ box_places factor (all_figures boxes.now) }
        ensures pairs { TellsPairs factor (all_figures boxes.now) (source_places result) }
    {
        let mut source = BoxSource::new(factor);
        for given in boxes {
            source.give(*given);
        }
        source
    }
}
