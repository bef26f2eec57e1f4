//! What the partitions so far have left.

/// Blocks and slots that are still to be had.
#[derive(Clone, Copy)]
pub struct Left {
    pub blocks: u32,
    pub slots: u32,
}
