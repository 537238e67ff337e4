//! A fabric that is read from bytes, in fixed memory.
ghost use Rattle.std.specs.Prelude.{◌≡◌, true, false, is_some};
ghost use Rattle.fabric.specs.Chart.{octets};
ghost use Rattle.fabric.specs.Check.{fault};
ghost use Rattle.fabric.specs.Stored.{stored};

use crate::bytes::Bytes;

/// A chart that passes every question: a record of 12 bytes for each node, the address and the neighbours of the ports 0 to 7.
#[derive(Clone, Copy)]
pub struct Chart {
    pub(crate) bytes: Bytes<1536>,
    ghost passed: { is_some (fault (stored bytes)) ≡ false },
    ghost small: { octets (stored bytes) ≡ true },
}
