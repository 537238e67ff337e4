//! Worked examples whose answers are known, as two lists: the calls that give them, and the proof that they do.
#![tactic(auto)]

ghost use Rattle.std.specs.Prelude.{◌≡◌, Ok};
ghost use Rattle.figures.specs.Known.{ruled, known, ruled_others, known_others};

use fabric::{Addressed, Cube, Layout, Mesh, Refusal, hop};

#[derive(Clone, Copy)]
pub struct Figures {
    /// On the mesh of 3 rows and 4 columns, the labels of the places (3, 1), (0, 1) and (0, 2).
    pub labels: [Option<u8>; 3],
    /// On the mesh of 4 rows and 4 columns, the hops from 6 towards 13, 7, 4 and 1.
    pub hops: [Option<u8>; 4],
}

/// The figures of cubes, and of a mesh with a closed link.
#[derive(Clone, Copy)]
pub struct OtherFigures {
    /// On the cube of dimension 3, the addresses of the labels 2, 4 and 7.
    pub addresses: [Option<u32>; 3],
    /// On the mesh of 4 rows and 4 columns with the link between 6 and 9 closed, the hop from 6 towards 13.
    pub detour: Option<u8>,
}

fn labels() -> Result<[Option<u8>; 3], Refusal>
    ensures rules { result ≡ Ok ruled.labels }
    ensures values { result ≡ Ok known.labels }
{
    let mesh = Mesh::new(3, 4)?;
    Ok([(3, 1), (0, 1), (0, 2)].map(|place| mesh.label_at(place)))
}

#[tactic(auto, unfolding(fabric::specs::Hop::hop_of))]
fn hops() -> Result<[Option<u8>; 4], Refusal>
    ensures rules { result ≡ Ok ruled.hops }
    ensures values { result ≡ Ok known.hops }
{
    let mesh = Mesh::new(4, 4)?;
    Ok([
        hop(&mesh, 6, 13),
        hop(&mesh, 6, 7),
        hop(&mesh, 6, 4),
        hop(&mesh, 6, 1),
    ])
}

/// Every figure of a mesh with all its links open, by the calls of the libraries.
pub fn work_out() -> Result<Figures, Refusal>
    ensures rules { result ≡ Ok ruled }
    ensures values { result ≡ Ok known }
{
    Ok(Figures {
        labels: labels()?,
        hops: hops()?,
    })
}

/// The figures of cubes and of a closed link, by the calls of the libraries.
#[tactic(auto, unfolding(fabric::specs::Hop::hop_of))]
pub fn work_out_others() -> Result<OtherFigures, Refusal>
    ensures rules { result ≡ Ok ruled_others }
    ensures values { result ≡ Ok known_others }
{
    let cube = Cube::new(3)?;
    let mut layout = Layout::new(Mesh::new(4, 4)?);
    layout.close((6, 9))?;
    Ok(OtherFigures {
        addresses: [cube.address(2), cube.address(4), cube.address(7)],
        detour: hop(&layout, 6, 13),
    })
}
