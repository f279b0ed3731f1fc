// A layout box: figures of a layer that there is, whose left mark is below the right one, and whose bottom is below the top.
ghost use Rattle.std.specs.Prelude.{◌≡◌, ◌<◌, ◌≤◌, ◌<ℤ◌, Ok, Err, MatchResult};
ghost use Rattle.boxes.specs.Box.{box_check};
ghost use Rattle.boxes.specs.Layer.{layer_number};

use crate::fault::BoxFault;
use crate::figures::Figures;
use crate::layer::Layer;

#[derive(Clone, Copy)]
pub struct LayoutBox {
    figures: Figures,
    ghost marks: { figures.left < figures.right },
    ghost span: { figures.bottom <ℤ figures.top },
    ghost layered: { figures.layer ≤ 2 },
}

impl LayoutBox {
    // The box of these figures, or the first cause why there is none.
    pub fn new(figures: Figures) -> Result<LayoutBox, BoxFault>
        ensures { MatchResult result (λ b. box_check figures ≡ Ok b.figures) (λ f. box_check figures ≡ Err f) }
    {
        if figures.left >= figures.right {
            return Err(BoxFault::LeftNotBelowRight);
        }
        if figures.bottom >= figures.top {
            return Err(BoxFault::BottomNotBelowTop);
        }
        Layer::try_from(figures.layer)?;
        Ok(LayoutBox { figures })
    }

    // The figures of the box, whose marks and span are in order.
    pub fn figures(&self) -> Figures
        ensures value { result ≡ self.now.figures }
        ensures marks { result.left < result.right }
        ensures span { result.bottom <ℤ result.top }
    {
        self.figures
    }

    // The layer of the box.
    pub fn layer(&self) -> Layer
        ensures { layer_number result ≡ self.now.figures.layer }
    {
        Layer::try_from(self.figures.layer).unwrap()
    }
}
