//! Tables of cases for the library `fabric`.
#![tactic(auto)]

#[cfg(test)]
mod answers;
#[cfg(test)]
mod charts;
#[cfg(test)]
mod copies;
#[cfg(test)]
mod cubes;
#[cfg(test)]
mod hops;
#[cfg(test)]
mod layouts;
#[cfg(test)]
mod meshes;
#[cfg(test)]
mod picks;
#[cfg(test)]
mod refusals;
