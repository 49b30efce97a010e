//! An image with its claims.

use crate::image::Image;
use seen_list::List;

/// The claims of a port: for each of its items, in their order, the number of an item of the netlist. In
/// what comes from elsewhere a number need not be that of an item.
#[derive(Drop)]
pub struct PortClaims {
    pub items: List<u32>,
}

/// The claims of an image: those of each port, in port order.
#[derive(Drop)]
pub struct Claims {
    pub ports: List<PortClaims>,
}

/// An image and its claims. The image need not be well formed.
#[derive(Drop)]
pub struct ImageFile {
    pub image: Image,
    pub claims: Claims,
}
