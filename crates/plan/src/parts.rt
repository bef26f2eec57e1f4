//! What a plan is made of.

/// A part of the fabric: `slots` slots of `size` blocks each, out of `blocks` blocks.
#[derive(Clone, Copy, Default)]
pub struct Partition {
    pub blocks: u32,
    pub slots: u32,
    pub size: u32,
}

/// An accelerator: the partition it is loaded into, the task that owns it, the blocks it needs and its run ticks.
#[derive(Clone, Copy, Default)]
pub struct Accelerator {
    pub partition: u32,
    pub owner: u32,
    pub need: u32,
    pub run: u32,
}
