//! The chart of any addressed fabric, written over a buffer.
ghost use Rattle.std.specs.Prelude.{◌≡◌, ◌<◌, length};
ghost use Rattle.fabric.specs.Copy.{record_byte, length_written, written, Copied};
ghost use Rattle.fabric.specs.Refusals.{told};

use crate::checks::NO_LABEL;
use crate::refusals::Refusal;
use crate::traits::Addressed;

// A byte of the record of a label: of its address, or the neighbour through a port.
// Who asks for an address learns that each label has one (`long`).
fn record_byte<F: Addressed>(fabric: &F, label: u8, place: u8) -> u8
    requires { place < 12 }
    ensures is { result ≡ record_byte (F.Fabric.meaning fabric.now).near (F.Addressed.addresses fabric.now) label place }
    ensures long { place < 4 → length (F.Addressed.addresses fabric.now) ≡ (F.Fabric.meaning fabric.now).nodes }
{
    if place < 4 {
        let address = fabric.address(label).unwrap_or(0);
        address.to_be_bytes()[usize::from(place)]
    } else {
        fabric.neighbour(label, place - 4).unwrap_or(NO_LABEL)
    }
}

/// Writes the chart of a fabric over the front of a buffer, and answers its length.
/// A buffer that is too short stays as it is.
pub fn write_chart<F: Addressed>(fabric: &F, buffer: &mut [u8]) -> Result<usize, Refusal>
    ensures says { told (λ n. n) result ≡ length_written (F.Fabric.meaning fabric.now) buffer.old }
    ensures does { buffer.new ≡ written (F.Fabric.meaning fabric.now) (F.Addressed.addresses fabric.now) buffer.old }
    ensures law { Copied result buffer.new (F.Fabric.meaning fabric.now) (F.Addressed.addresses fabric.now) }
{
    let length = 12 * usize::from(fabric.size());
    if buffer.len() < length {
        return Err(Refusal::BufferShort);
    }
    for (i, byte) in buffer[..length].iter_mut().enumerate() {
        *byte = record_byte(fabric, (i / 12) as u8, (i % 12) as u8);
    }
    Ok(length)
}
