// Layout boxes, and the source of the width and spacing rules that they give.
#![tactic(auto)]

pub mod fault;
pub mod figures;
pub mod lambda;
pub mod layer;
pub mod layout_box;
pub mod source;
