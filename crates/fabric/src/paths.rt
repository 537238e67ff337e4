//! Labels one after another, in fixed memory.
ghost use Rattle.std.specs.Prelude.{◌≤◌, length};
ghost use Rattle.fabric.specs.Stored.{stored};

use crate::bytes::Bytes;

/// The labels on the way from a node to another, both ends included: one more than there are hops.
/// There are at most 128, since a way comes to no label twice.
#[derive(Clone, Copy)]
pub struct Path {
    pub(crate) labels: Bytes<128>,
    ghost some: { 1 ≤ length (stored labels) },
    ghost short: { length (stored labels) ≤ 128 },
}
