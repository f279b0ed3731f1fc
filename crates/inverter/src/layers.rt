// How each layer is named, and what it is drawn with.
ghost use Rattle.std.specs.Prelude.{◌≡◌, [], ◌∷◌};
ghost use Rattle.boxes.specs.Layer.{layer_number};
ghost use Rattle.inverter.specs.Layers.{layer_name, symbol};

use boxes::layer::Layer;

pub(crate) fn layer_name(layer: Layer) -> &'static str
    ensures { result.now ≡ layer_name (layer_number layer) }
{
    match layer {
        Layer::NWell => "n-well",
        Layer::Diffusion => "diffusion",
        Layer::Polysilicon => "polysilicon",
    }
}

pub(crate) fn symbol(layer: Layer) -> &'static str
    ensures { result.now ≡ symbol (layer_number layer) ∷ [] }
{
    match layer {
        Layer::NWell => "-",
        Layer::Diffusion => "#",
        Layer::Polysilicon => "|",
    }
}
