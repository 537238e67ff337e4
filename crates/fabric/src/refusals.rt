//! Why a call refuses to do what it is asked.
ghost use Rattle.std.specs.Prelude.{◌≡◌};
ghost use Rattle.fabric.specs.Refusals.{number_of};

use thiserror::Error;

/// One case for each reason to refuse, in the order of their numbers, which begin at 1. A refusal is shown as the rule that a call has to keep.
#[derive(Clone, Copy, Debug, Error)]
pub enum Refusal {
    /// Rows or columns are 0, or their product exceeds 128.
    #[error("a mesh has at least 1 row and 1 column, and at most 128 nodes")]
    MeshSize,
    /// The dimension exceeds 7.
    #[error("a cube has at most 7 dimensions")]
    CubeSize,
    /// The bytes are not 1 to 128 whole records of a chart.
    #[error("a chart has 1 to 128 whole records of 12 bytes")]
    ChartLength,
    /// A port in a chart names a label that does not exist.
    #[error("a port leads to a label that exists, or is 255 for none")]
    ChartLabel,
    /// A node in a chart neighbours itself.
    #[error("no node neighbours itself")]
    ChartSelf,
    /// A node in a chart meets a neighbour through two ports.
    #[error("no neighbour is met through two ports")]
    ChartTwice,
    /// A node in a chart names a neighbour that does not name it.
    #[error("a neighbour names the node that names it")]
    ChartOneWay,
    /// Two nodes in a chart have one address.
    #[error("all addresses differ")]
    ChartAddress,
    /// A node in a chart, other than the last, does not name the next label.
    #[error("every label but the last neighbours the next label")]
    ChartChain,
    /// A link to close has an end that does not exist.
    #[error("a link joins labels that exist")]
    LinkLabel,
    /// The ends of a link to close are no neighbours.
    #[error("a link joins neighbours")]
    LinkMissing,
    /// The ends of a link to close are one apart.
    #[error("a link between labels one apart stays open")]
    LinkInChain,
    /// A link to close is closed already.
    #[error("a link is closed once")]
    LinkClosed,
    /// As many links are closed as a layout holds.
    #[error("a layout has at most 64 closed links")]
    LinksFull,
    /// The buffer is shorter than the chart.
    #[error("a chart takes 12 bytes for each node")]
    BufferShort,
}

impl Refusal {
    /// The number by which reports name the refusal.
    pub fn number(&self) -> u8
        ensures { result ≡ number_of self.now }
    {
        *self as u8 + 1
    }
}
