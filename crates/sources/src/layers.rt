//! Layers: each is a source over the source below it.
pub mod floor;
pub mod times;
