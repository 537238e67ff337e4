//! Fabrics of tiles: what a fabric is, hops and ways on any fabric; meshes, cubes and charts; and layouts, in which links are closed.
#![tactic(auto)]

mod bytes;
mod charts;
mod checks;
mod cubes;
mod hops;
mod layouts;
mod links;
mod meshes;
mod opens;
mod paths;
mod picks;
mod questions;
mod refusals;
mod traits;
mod ways;
mod writes;

pub use charts::Chart;
pub use checks::ChartFault;
pub use cubes::Cube;
pub use hops::hop;
pub use layouts::Layout;
pub use meshes::Mesh;
pub use paths::Path;
pub use picks::{Ranked, pick};
pub use refusals::Refusal;
pub use traits::{Addressed, Fabric};
pub use ways::{length, way};
pub use writes::write_chart;
