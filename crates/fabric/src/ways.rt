//! The way from a node to another hop by hop, and its length, on any fabric.
ghost use Rattle.std.specs.Prelude.{◌≡◌};
ghost use Rattle.std.specs.Option.{option_map};
ghost use Rattle.fabric.specs.Way.{labels_of, hops_in, way_of, Travelled, length_of, Measured};

use crate::bytes::Bytes;
use crate::hops::{both_exist, hop};
use crate::paths::Path;
use crate::traits::Fabric;

impl Path {
    /// The labels, from the first to the last.
    pub fn labels(&self) -> &[u8]
        ensures { result.now ≡ labels_of self.now }
    {
        self.labels.as_slice()
    }

    // How many hops there are: one less than labels.
    fn hops(&self) -> u8
        ensures { result ≡ hops_in self.now }
    {
        (self.labels().len() - 1) as u8
    }
}

/// The labels on the way from a node to another, or none where one of them does not exist.
pub fn way<F: Fabric>(fabric: &F, from: u8, to: u8) -> Option<Path>
    ensures is { option_map labels_of result ≡ way_of (F.Fabric.meaning fabric.now) from to }
    ensures law { Travelled (F.Fabric.meaning fabric.now) from to (option_map labels_of result) }
    ensures hops { option_map hops_in result ≡ length_of (F.Fabric.meaning fabric.now) from to }
    ensures measured { Measured (F.Fabric.meaning fabric.now) from to (option_map hops_in result) }
{
    if !both_exist(fabric, from, to) {
        return None;
    }
    let mut labels = Bytes::of(&[from]);
    let mut at = from;
    while let Some(next) = hop(fabric, at, to) {
        labels.push(next);
        at = next;
    }
    Some(Path { labels })
}

/// The number of hops from a node to another, or none where one of them does not exist.
pub fn length<F: Fabric>(fabric: &F, from: u8, to: u8) -> Option<u8>
    ensures is { result ≡ length_of (F.Fabric.meaning fabric.now) from to }
    ensures law { Measured (F.Fabric.meaning fabric.now) from to result }
{
    Some(way(fabric, from, to)?.hops())
}
