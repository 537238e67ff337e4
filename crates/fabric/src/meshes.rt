//! The mesh with the snake labelling.
ghost use Rattle.std.specs.Prelude.{◌≡◌, ◌*◌, ◌<◌};
ghost use Rattle.fabric.specs.Steps.{BySteps};
ghost use Rattle.fabric.specs.Refusals.{told};
ghost use Rattle.fabric.specs.Snake.{Shape, shape_of, turned, label_of, place_at, place_of, Placed, beside, mesh_near, mesh_meaning, address_at, place_with, mesh_addresses};
ghost use Rattle.fabric.specs.Snakes.{mesh_lawful, mesh_placing, one_address, small_address};
ghost use Rattle.fabric.specs.Coding.{different};
ghost use Rattle.fabric.specs.Coding;

use crate::refusals::Refusal;
use crate::traits::{Addressed, Fabric};

/// Rows and columns of nodes. A place is its column and its row, counted from 0.
#[derive(Clone, Copy)]
pub struct Mesh {
    rows: u8,
    columns: u8,
    ghost fits: { Shape rows columns },
}

impl Mesh {
    /// A mesh of so many rows and columns, or the refusal where there is none.
    #[tactic(auto, using(crate::specs::Snakes::oversized))]
    pub fn new(rows: u32, columns: u32) -> Result<Mesh, Refusal>
        ensures { told (λ m. (m.rows, m.columns)) result ≡ shape_of rows columns }
    {
        let rows = u8::try_from(rows).map_err(|_| Refusal::MeshSize)?;
        let columns = u8::try_from(columns).map_err(|_| Refusal::MeshSize)?;
        match rows.checked_mul(columns) {
            Some(1..=128) => Ok(Mesh { rows, columns }),
            _ => Err(Refusal::MeshSize),
        }
    }

    /// The number of rows and the number of columns.
    pub fn shape(&self) -> (u8, u8)
        ensures { result ≡ (self.now.rows, self.now.columns) }
    {
        (self.rows, self.columns)
    }

    /// The label of a place, or none where it is not on the mesh.
    pub fn label_at(&self, place: (u8, u8)) -> Option<u8>
        ensures { result ≡ label_of self.now.rows self.now.columns place }
    {
        let (x, y) = place;
        (x < self.columns && y < self.rows).then(|| y * self.columns + self.turned(y, x))
    }

    /// The place of a label, or none where the label does not exist.
    pub fn place_of(&self, label: u8) -> Option<(u8, u8)>
        ensures is { result ≡ place_of self.now.rows self.now.columns label }
        ensures law { Placed self.now.rows self.now.columns label result }
    {
        (label < self.size()).then(|| self.place_at(label))
    }

    // The place of a label that exists.
    fn place_at(&self, label: u8) -> (u8, u8)
        ensures { result ≡ place_at self.now.columns label }
    {
        let y = label / self.columns;
        (self.turned(y, label % self.columns), y)
    }

    // A column counted the way its row goes: odd rows run backwards.
    fn turned(&self, y: u8, x: u8) -> u8
        requires { x < self.now.columns }
        ensures { result ≡ turned self.now.columns y x }
    {
        if y % 2 == 0 { x } else { self.columns - x - 1 }
    }

    // The place that a port leads to.
    fn beside(&self, place: (u8, u8), port: u8) -> Option<(u8, u8)>
        requires { (place.0 < self.now.columns) × (place.1 < self.now.rows) }
        ensures { result ≡ beside self.now.rows self.now.columns place port }
    {
        let (x, y) = place;
        match port {
            0 if x + 1 < self.columns => Some((x + 1, y)),
            1 if x > 0 => Some((x - 1, y)),
            2 if y + 1 < self.rows => Some((x, y + 1)),
            3 if y > 0 => Some((x, y - 1)),
            _ => None,
        }
    }
}

impl Fabric for Mesh {
    ghost meaning = { λ m. mesh_meaning m.rows m.columns };

    ghost lawful = { λ m. mesh_lawful m.rows m.columns m.fits };

    fn size(&self) -> u8 {
        self.rows * self.columns
    }

    fn neighbour(&self, label: u8, port: u8) -> Option<u8>
        ensures is { result ≡ mesh_near self.now.rows self.now.columns label port }
        ensures law { BySteps (self.now.rows * self.now.columns) (place_at self.now.columns) (beside self.now.rows self.now.columns) label port result }
    {
        let place = self.place_of(label)?;
        self.label_at(self.beside(place, port)?)
    }
}

// The address of a place.
fn address_at(place: (u8, u8)) -> u32
    ensures { result ≡ address_at place }
{
    let (x, y) = place;
    u32::from_be_bytes([0, 0, y, x])
}

// The place that has an address on some mesh.
fn place_with(address: u32) -> Option<(u8, u8)>
    ensures { result ≡ place_with address }
{
    match address.to_be_bytes() {
        [0, 0, y, x] => Some((x, y)),
        _ => None,
    }
}

impl Addressed for Mesh {
    ghost addresses = { λ m. mesh_addresses m.rows m.columns };

    ghost distinct = { λ m. different (mesh_placing m.rows m.columns m.fits) address_at (one_address m.rows m.columns m.fits) };

    ghost fit = { λ m. Coding.fits (mesh_placing m.rows m.columns m.fits) address_at (small_address m.rows m.columns m.fits) };

    fn address(&self, label: u8) -> Option<u32> {
        self.place_of(label).map(address_at)
    }

    fn label_of(&self, address: u32) -> Option<u8> {
        self.label_at(place_with(address)?)
    }
}
