// The figures of a box, as plain numbers: its layer, its marks, and its vertical span.
#[derive(Clone, Copy, PartialEq, Eq, Debug)]
pub struct Figures {
    // Any number, since figures are what an outsider brings: there is no box of a layer that there is not.
    pub layer: u8,
    pub left: u16,
    pub right: u16,
    pub bottom: i32,
    pub top: i32,
}
