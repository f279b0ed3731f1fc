// Why a box cannot be made, and the number of each refusal.
ghost use Rattle.std.specs.Prelude.{◌≡◌};
ghost use Rattle.boxes.specs.Fault.{box_fault_number};

use thiserror::Error;

#[derive(Clone, Copy, PartialEq, Eq, Debug, Error)]
pub enum BoxFault {
    #[error("the left mark is not below the right mark")]
    LeftNotBelowRight = 17,
    #[error("the bottom is not below the top")]
    BottomNotBelowTop = 18,
    #[error("there is no such layer")]
    NoSuchLayer = 19,
}

impl BoxFault {
    // The number of the refusal.
    pub fn number(self) -> u32
        ensures { result ≡ box_fault_number self }
    {
        self as u32
    }
}
