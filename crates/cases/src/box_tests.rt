// Boxes that are refused, 90 and 91 boxes, spans that touch, and gaps at the limit.
use crate::samples::{figures, rule, steps};
use boxes::fault::BoxFault;
use boxes::layer::Layer;
use boxes::layout_box::LayoutBox;
use boxes::source::BoxSource;
use lengths::grid::Grid;
use rules::fault::RuleFault;
use rules::rule::Rule;
use rules::source::Source;
use std::test::Fail;

// The number of the refusal; 0 where there is none, as in the tables of these tests.
fn refusal(layer: u8, left: u16, right: u16, bottom: i32, top: i32) -> u32 {
    match LayoutBox::new(figures(layer, left, right, bottom, top)) {
        Ok(_) => 0,
        Err(fault) => fault.number(),
    }
}

fn minimum(from: u16, to: u16, steps: i64) -> Option<Rule<Grid>> {
    Some(rule(from, to, steps))
}

#[test]
fn refusals(rt: HostRuntime) {
    assert_eq!(rt; refusal(2, 1, 2, -5, 5), 0);
    assert_eq!(rt; refusal(3, 2, 2, 5, 5), 17);
    assert_eq!(rt; refusal(3, 1, 2, 5, 5), 18);
    assert_eq!(rt; refusal(3, 1, 2, 4, 5), 19);
}

#[test]
fn layers(rt: HostRuntime) -> Result<(), Fail> {
    assert_eq!(rt; Layer::try_from(0), Ok(Layer::NWell));
    assert_eq!(rt; Layer::try_from(2), Ok(Layer::Polysilicon));
    assert_eq!(rt; Layer::try_from(3), Err(BoxFault::NoSuchLayer));
    assert_eq!(rt;
        LayoutBox::new(figures(1, 3, 4, 5, 20))?.layer(),
        Layer::Diffusion
    );
    assert_eq!(rt; Layer::Diffusion.spacing(Layer::Polysilicon), Some(2));
    assert_eq!(rt; Layer::NWell.spacing(Layer::Diffusion), None);
    Ok(())
}

#[test]
fn two_boxes(rt: HostRuntime) -> Result<(), Fail> {
    let gate = LayoutBox::new(figures(2, 1, 2, 0, 10))?;
    let beside = LayoutBox::new(figures(1, 3, 4, 5, 20))?;
    let above = LayoutBox::new(figures(1, 3, 4, 10, 20))?;
    let source = BoxSource::from_boxes(2, &[gate, beside]);
    assert_eq!(rt; source.places(), 4);
    assert_eq!(rt; source.rule(0), minimum(1, 2, 4));
    assert_eq!(rt; source.rule(1), minimum(2, 3, 4));
    assert_eq!(rt; source.rule(2), None);
    assert_eq!(rt; source.rule(3), minimum(3, 4, 8));
    assert_eq!(rt; source.rule(4), None);
    let source = BoxSource::from_boxes(2, &[gate, above]);
    assert_eq!(rt; source.rule(1), None);
    Ok(())
}

#[test]
fn many_boxes(rt: HostRuntime) -> Result<(), Fail> {
    let gate = LayoutBox::new(figures(2, 1, 2, 0, 10))?;
    let mut source = BoxSource::from_boxes(1, &[gate; 90]);
    assert_eq!(rt; source.places(), 8100);
    assert_eq!(rt; source.rule(8099), minimum(1, 2, 2));
    source.give(gate);
    assert_eq!(rt; source.places(), 8193);
    assert_eq!(rt; source.rule(0), None);
    source.give(gate);
    assert_eq!(rt; source.places(), 8193);
    Ok(())
}

#[test]
fn gaps_at_the_limit(rt: HostRuntime) -> Result<(), Fail> {
    let well = LayoutBox::new(figures(0, 1, 2, 0, 10))?;
    let fits = BoxSource::from_boxes(83_333, &[well])
        .rule(0)
        .ok_or("nothing told")?;
    assert_eq!(rt; fits.gap, steps(999_996));
    assert_eq!(rt; fits.check(3), Ok(()));
    let unfit = BoxSource::from_boxes(83_334, &[well])
        .rule(0)
        .ok_or("nothing told")?;
    assert_eq!(rt; unfit.check(3), Err(RuleFault::GapTooLarge));
    Ok(())
}
