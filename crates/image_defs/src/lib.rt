//! Images: fixed programs for processors and switch, their values, and when one matches a netlist's items, as
//! definitions with their laws. The definitions are in `specs/`: which images are well formed, which value an image
//! has at each turn, port and slot, how far a port has come in a turn, and when an image matches the items of a
//! netlist: each item of a port claims an item of the netlist, and is computed from what its operands claim. What
//! an image that matches gives at a place is the value of the item that the place claims, whether the image was
//! built or comes from elsewhere.
//!
//! ```
//! ensures only { IsWellFormed file.now.image → Matches file.now.image (lists_of file.now.claims) nodes.now timing.now
//!     → IsOkOrMemory result } // a clause of `check_image` in `image_check`
//! ```
#![tactic(auto)]

mod file;
mod image;
pub mod law;
mod slots;

pub use file::{Claims, ImageFile, PortClaims};
pub use image::{
    BlockWork, Image, InColumn, LinkIn, LinkOut, OutBit, PortImage, Source, Task, Work,
};
pub use slots::slots_of;
