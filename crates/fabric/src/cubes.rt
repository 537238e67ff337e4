//! The cube, labelled in the order of the reflected Gray code.
ghost use Rattle.std.specs.Prelude.{◌≡◌, ◌^◌, ◌≤◌, nat_lt};
ghost use Rattle.fabric.specs.Options.{allowed};
ghost use Rattle.fabric.specs.Steps.{BySteps};
ghost use Rattle.fabric.specs.Refusals.{told};
ghost use Rattle.fabric.specs.Gray.{dimension_of, gray, ungray, flip, cube_near, cube_meaning, cube_addresses, only_bit, port_to, LeadsTo};
ghost use Rattle.fabric.specs.Grays.{cube_lawful, cube_placing, small_corner};
ghost use Rattle.fabric.specs.Coding.{different, fits};

use crate::refusals::Refusal;
use crate::traits::{Addressed, Fabric};

/// The corners of a cube of any dimension up to 7. Dimension 0 is a single node.
#[derive(Clone, Copy)]
pub struct Cube {
    dimension: u8,
    ghost small: { dimension ≤ 7 },
}

// The Gray code of a label.
fn gray(label: u8) -> u8
    ensures { result ≡ gray label }
{
    label ^ (label >> 1)
}

// The label of a Gray code of up to seven bits.
fn ungray(code: u8) -> u8
    ensures { result ≡ ungray code }
{
    let code = code ^ (code >> 1);
    let code = code ^ (code >> 2);
    code ^ (code >> 4)
}

// The index of the only bit that is set, where there is just one.
fn only_bit(bits: u8) -> Option<u8>
    ensures { result ≡ only_bit bits }
{
    match bits.count_ones() {
        1 => u8::try_from(bits.trailing_zeros()).ok(),
        _ => None,
    }
}

impl Cube {
    /// A cube of this dimension, or the refusal where it is too large.
    pub fn new(dimension: u32) -> Result<Cube, Refusal>
        ensures { told (λ c. c.dimension) result ≡ dimension_of dimension }
    {
        match u8::try_from(dimension) {
            Ok(dimension @ 0..=7) => Ok(Cube { dimension }),
            _ => Err(Refusal::CubeSize),
        }
    }

    // The Gray code of a label that exists.
    fn code(&self, label: u8) -> Option<u8>
        ensures { result ≡ allowed (nat_lt label (2 ^ self.now.dimension)) (gray label) }
    {
        (label < self.size()).then(|| gray(label))
    }

    /// The port that leads from a label to another, or none where they are no neighbours.
    pub fn port_to(&self, from: u8, to: u8) -> Option<u8>
        ensures is { result ≡ port_to self.now.dimension from to }
        ensures law { LeadsTo (cube_near self.now.dimension) from to result }
    {
        only_bit(self.code(from)? ^ self.code(to)?)
    }

    // The code across a port.
    fn across(&self, code: u8, port: u8) -> Option<u8>
        ensures { result ≡ flip self.now.dimension code port }
    {
        (port < self.dimension).then(|| code ^ (1 << port))
    }

    // The label of a code, where a label of the cube has it.
    fn label_with(&self, code: u32) -> Option<u8>
        ensures { result ≡ allowed (nat_lt code (2 ^ self.now.dimension)) (ungray code) }
    {
        let code = u8::try_from(code).ok()?;
        (code < self.size()).then(|| ungray(code))
    }
}

impl Fabric for Cube {
    ghost meaning = { λ c. cube_meaning c.dimension };

    ghost lawful = { λ c. cube_lawful c.dimension c.small };

    fn size(&self) -> u8 {
        1 << self.dimension
    }

    fn neighbour(&self, label: u8, port: u8) -> Option<u8>
        ensures is { result ≡ cube_near self.now.dimension label port }
        ensures law { BySteps (2 ^ self.now.dimension) gray (flip self.now.dimension) label port result }
    {
        self.across(self.code(label)?, port).map(ungray)
    }
}

impl Addressed for Cube {
    ghost addresses = { λ c. cube_addresses c.dimension };

    ghost distinct = { λ c. different (cube_placing c.dimension c.small) (λ a. a) (λ a b i j e. e) };

    ghost fit = { λ c. fits (cube_placing c.dimension c.small) (λ a. a) (small_corner c.dimension c.small) };

    fn address(&self, label: u8) -> Option<u32> {
        self.code(label).map(u32::from)
    }

    fn label_of(&self, address: u32) -> Option<u8> {
        self.label_with(address)
    }
}
