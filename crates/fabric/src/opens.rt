//! The fabric of a chart.
ghost use Rattle.std.specs.Prelude.{◌≡◌, ◌≤◌, false, length, is_some};
ghost use Rattle.fabric.specs.Chart.{chart_near, chart_meaning, chart_addresses, Recorded, alone};
ghost use Rattle.fabric.specs.Check.{fault, fault_of, Checked, opened_as};
ghost use Rattle.fabric.specs.Copy.{Opened};
ghost use Rattle.fabric.specs.Held.{bytes_of};
ghost use Rattle.fabric.specs.Asking.{held_sound};
ghost use Rattle.fabric.specs.Charting.{chart_lawful, chart_different};
ghost use Rattle.fabric.specs.Octets.{addresses_fit};

use crate::bytes::Bytes;
use crate::charts::Chart;
use crate::checks::{ChartFault, address_in, ask, label_in, neighbour_in, records};
use crate::traits::{Addressed, Fabric};

// The chart of one node, with address 0.
fn alone() -> [u8; 12]
    ensures { result ≡ alone }
{
    [0, 0, 0, 0, 255, 255, 255, 255, 255, 255, 255, 255]
}

impl Chart {
    /// Whether the bytes are a chart, and else the first fault.
    #[tactic(auto, using(crate::specs::Charting::checked))]
    pub fn check(bytes: &[u8]) -> Result<(), ChartFault>
        ensures is { fault_of result ≡ fault bytes.now }
        ensures law { Checked bytes.now (fault_of result) }
    {
        ask(bytes)
    }

    // The chart of bytes that pass.
    fn of(bytes: &[u8]) -> Chart
        requires long { length bytes.now ≤ 1536 }
        requires passed { is_some (fault bytes.now) ≡ false }
        ensures { bytes_of result ≡ bytes.now }
    {
        Chart {
            bytes: Bytes::of(bytes),
        }
    }

    /// The fabric of the chart; one node with address 0 where the bytes do not pass.
    pub fn open(bytes: &[u8]) -> Chart
        ensures is { bytes_of result ≡ opened_as bytes.now }
        ensures law { Opened bytes.now (bytes_of result) }
    {
        match ask(bytes) {
            Ok(()) => Chart::of(bytes),
            Err(_) => Chart::of(&alone()),
        }
    }

    /// The chart's bytes.
    pub fn bytes(&self) -> &[u8]
        ensures { result.now ≡ bytes_of self.now }
    {
        self.bytes.as_slice()
    }
}

impl Fabric for Chart {
    ghost meaning = { λ c. chart_meaning (bytes_of c) };

    ghost lawful = { λ c. let b = bytes_of c in chart_lawful b (held_sound b c.passed) };

    fn size(&self) -> u8 {
        records(self.bytes()) as u8
    }

    fn neighbour(&self, label: u8, port: u8) -> Option<u8>
        ensures is { result ≡ chart_near (bytes_of self.now) label port }
        ensures law { Recorded (bytes_of self.now) label port result }
    {
        neighbour_in(self.bytes(), label, port)
    }
}

impl Addressed for Chart {
    ghost addresses = { λ c. chart_addresses (bytes_of c) };

    ghost distinct = { λ c. let b = bytes_of c in chart_different b (held_sound b c.passed) };

    ghost fit = { λ c. addresses_fit (bytes_of c) c.small };

    fn address(&self, label: u8) -> Option<u32> {
        address_in(self.bytes(), label)
    }

    fn label_of(&self, address: u32) -> Option<u8> {
        label_in(self.bytes(), self.size(), address)
    }
}
