// Where a rule in force comes from, and the number by which answers name it.
ghost use Rattle.std.specs.Prelude.{◌≡◌, IfOk};
ghost use Rattle.cell.specs.Origin.{origin_number, origin_of};

use thiserror::Error;

#[derive(Clone, Copy, PartialEq, Eq, Debug)]
pub enum Origin {
    // Entered under a tag.
    Entered(u16),
    // The boundary rule of a mark.
    Border(u16),
    // Told by a source at a place.
    Told(u16),
}

// A number that names no rule.
#[derive(Clone, Copy, PartialEq, Eq, Debug, Error)]
#[error("no rule has number {number}")]
pub struct UnusedNumber {
    pub number: u32,
}

// Where the numbers of the boundary rules begin, and those of a source's rules; tags are below both.
const FIRST_BORDER: u32 = 70_000;

const FIRST_TOLD: u32 = 100_000;

impl From<Origin> for u32 {
    ghost from_gives = { λ origin number. number ≡ origin_number origin };

    fn from(origin: Origin) -> u32 {
        match origin {
            Origin::Entered(tag) => u32::from(tag),
            Origin::Border(mark) => FIRST_BORDER + u32::from(mark),
            Origin::Told(place) => FIRST_TOLD + u32::from(place),
        }
    }
}

impl TryFrom<u32> for Origin {
    type Error = UnusedNumber;

    ghost try_from_gives = { λ number r. (r ≡ origin_of number) × IfOk r (λ origin. origin_number origin ≡ number) };

    fn try_from(number: u32) -> Result<Origin, UnusedNumber> {
        if number >= FIRST_TOLD {
            match u16::try_from(number - FIRST_TOLD) {
                Ok(place) => Ok(Origin::Told(place)),
                Err(_) => Err(UnusedNumber { number }),
            }
        } else if number >= FIRST_BORDER {
            Ok(Origin::Border((number - FIRST_BORDER) as u16))
        } else {
            match u16::try_from(number) {
                Ok(tag) => Ok(Origin::Entered(tag)),
                Err(_) => Err(UnusedNumber { number }),
            }
        }
    }
}
