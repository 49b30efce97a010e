//! An image text as far as it has been read.

use image_defs::{ImageFile, PortClaims, PortImage};
use image_lines::Sizes;
use seen_list::List;

/// A port, the claims of its items and the bits of its memories, as far as they have been read.
#[derive(Drop)]
pub(crate) struct OpenPort {
    pub port: PortImage,
    pub items: List<u32>,
    pub bits: u64,
}

/// What the second line says, the ports that have been read with their claims, and the one whose lines
/// are being read.
#[derive(Drop)]
pub(crate) struct Body {
    pub sizes: Sizes,
    pub ports: List<PortImage>,
    pub claims: List<PortClaims>,
    pub current: OpenPort,
}

/// How far a text has been read.
#[derive(Drop)]
pub(crate) enum Draft {
    /// No line of it.
    Blank,
    /// Its first line.
    Titled,
    /// Its first two lines.
    Sized(Sizes),
    /// A port's lines at least, of a first port or a later one.
    Within(Body),
    /// Its line `end`.
    Ended(ImageFile),
}
