//! The hop from a node towards another, on any fabric.
ghost use Rattle.std.specs.Prelude.{◌≡◌};
ghost use Rattle.fabric.specs.Hop.{exist, leads_onward, labels_short, exit_of, exits_of, hop_of, Hopped};

use crate::picks::{Ranked, pick};
use crate::traits::Fabric;

// A port of `from` and where it leads, as seen by a message to `towards`.
#[derive(Clone, Copy)]
struct Exit {
    from: u8,
    towards: u8,
    neighbour: Option<u8>,
}

impl Ranked for Exit {
    ghost eligible = { leads_onward };

    ghost rank = { labels_short };

    fn eligible(&self) -> bool {
        self.neighbour.is_some_and(|w| {
            (self.from < w && w <= self.towards) || (self.towards <= w && w < self.from)
        })
    }

    fn rank(&self) -> u32 {
        self.neighbour
            .map_or(0, |w| u32::from(w.abs_diff(self.towards)))
    }
}

// Whether both labels exist.
pub(crate) fn both_exist<F: Fabric>(fabric: &F, u: u8, v: u8) -> bool
    ensures { result ≡ exist (F.Fabric.meaning fabric.now).nodes u v }
{
    let size = fabric.size();
    u < size && v < size
}

// A port of a node.
fn exit_at<F: Fabric>(fabric: &F, from: u8, towards: u8, port: u8) -> Exit
    ensures { result ≡ exit_of (F.Fabric.meaning fabric.now).near from towards port }
{
    Exit {
        from,
        towards,
        neighbour: fabric.neighbour(from, port),
    }
}

// The eight ports of a node.
fn exits<F: Fabric>(fabric: &F, from: u8, towards: u8) -> [Exit; 8]
    ensures { result ≡ exits_of (F.Fabric.meaning fabric.now).near from towards }
{
    [
        exit_at(fabric, from, towards, 0),
        exit_at(fabric, from, towards, 1),
        exit_at(fabric, from, towards, 2),
        exit_at(fabric, from, towards, 3),
        exit_at(fabric, from, towards, 4),
        exit_at(fabric, from, towards, 5),
        exit_at(fabric, from, towards, 6),
        exit_at(fabric, from, towards, 7),
    ]
}

/// The neighbour of greatest label above `from` and not above `towards`, or of least label below and not below.
/// There is none where the labels are equal or one of them does not exist.
pub fn hop<F: Fabric>(fabric: &F, from: u8, towards: u8) -> Option<u8>
    ensures is { result ≡ hop_of (F.Fabric.meaning fabric.now) from towards }
    ensures law { Hopped (F.Fabric.meaning fabric.now) from towards result }
{
    if !both_exist(fabric, from, towards) {
        return None;
    }
    pick(&exits(fabric, from, towards))?.neighbour
}
