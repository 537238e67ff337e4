//! The closed links of a layout.
ghost use Rattle.std.specs.Prelude.{◌≡◌, ◌≤◌, true, length};
ghost use Rattle.fabric.specs.Links.{all_apart};

use arrayvec::ArrayVec;

// At most 64 links, each by the two labels that it joins.
// None joins labels that are one apart, so the chain from label to label stays whole.
#[derive(Drop)]
pub(crate) struct Closed {
    pub(crate) links: ArrayVec<(u8, u8), 64>,
    ghost few: { length links.items ≤ 64 },
    ghost spared: { all_apart links.items ≡ true },
}
