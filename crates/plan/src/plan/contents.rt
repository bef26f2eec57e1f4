//! The first line of a plan's text.

/// How much of each thing there is.
#[derive(Clone, Copy)]
pub struct Contents {
    pub fabric: u32,
    pub partitions: u32,
    pub accelerators: u32,
    pub tasks: u32,
}
