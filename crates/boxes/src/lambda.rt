// The lambda table by the numbers of layers, in lambdas. Any number may be asked for, also one that no layer has.
ghost use Rattle.std.specs.Prelude.{◌≡◌};
ghost use Rattle.boxes.specs.Lambda.{lambda_width, lambda_spacing};

use crate::layer::Layer;

// The least width of a box of a layer, by the layer's number; 0 where there is no such layer, as has been promised.
pub fn width(layer: u8) -> u32
    ensures { result ≡ lambda_width layer }
{
    Layer::try_from(layer).map_or(0, Layer::width)
}

// The least spacing of two boxes of these layers, where they have one.
pub fn spacing(first: u8, second: u8) -> Option<u32>
    ensures { result ≡ lambda_spacing first second }
{
    let first = Layer::try_from(first).ok()?;
    let second = Layer::try_from(second).ok()?;
    first.spacing(second)
}
