// The layers of the chips, the widths and spacings of their boxes in lambdas, and the numbers of the layers.
ghost use Rattle.std.specs.Prelude.{◌≡◌};
ghost use Rattle.boxes.specs.Layer.{layer_of, layer_number};
ghost use Rattle.boxes.specs.Lambda.{lambda_width, lambda_spacing};

use crate::fault::BoxFault;

#[derive(Clone, Copy, PartialEq, Eq, Debug)]
pub enum Layer {
    NWell = 0,
    Diffusion = 1,
    Polysilicon = 2,
}

impl Layer {
    // The least width of a box of the layer.
    pub fn width(self) -> u32
        ensures { result ≡ lambda_width (layer_number self) }
    {
        match self {
            Layer::NWell => 12,
            Layer::Diffusion => 4,
            Layer::Polysilicon => 2,
        }
    }

    // The least spacing from a box of the layer to one of another, where they have one.
    pub fn spacing(self, other: Layer) -> Option<u32>
        ensures { result ≡ lambda_spacing (layer_number self) (layer_number other) }
    {
        match (self, other) {
            (Layer::NWell, Layer::NWell) => Some(12),
            (Layer::Diffusion, Layer::Diffusion) => Some(4),
            (Layer::Polysilicon, Layer::Polysilicon) => Some(3),
            (Layer::Diffusion, Layer::Polysilicon) | (Layer::Polysilicon, Layer::Diffusion) => Some(
                2,
            ),
            (Layer::NWell, _) | (_, Layer::NWell) => None,
        }
    }
}

impl TryFrom<u8> for Layer {
    type Error = BoxFault;

    ghost try_from_gives = { λ number r. r ≡ layer_of number };

    fn try_from(number: u8) -> Result<Layer, BoxFault> {
        match number {
            0 => Ok(Layer::NWell),
            1 => Ok(Layer::Diffusion),
            2 => Ok(Layer::Polysilicon),
            _ => Err(BoxFault::NoSuchLayer),
        }
    }
}
