//! A fabric without the links that are closed.
ghost use Rattle.std.specs.Prelude.{◌≡◌, ◌<◌, true, [], ◌∷◌, ◌++◌, length, Some};
ghost use Rattle.fabric.specs.Fabrics.{SameMeaning};
ghost use Rattle.fabric.specs.Refusals.{refusal};
ghost use Rattle.fabric.specs.Links.{apart, joins, holds, unless_closed, neighbours, thinned, thinned_meaning, Thinned, close_refusal, closed_after, Closes};
ghost use Rattle.fabric.specs.Layouts.{links_of};
ghost use Rattle.fabric.specs.Closing.{thinned_lawful};

use crate::hops::both_exist;
use crate::links::Closed;
use crate::refusals::Refusal;
use crate::traits::{Addressed, Fabric};
use arrayvec::ArrayVec;

// Whether a link joins two labels, in either order.
fn joins(link: (u8, u8), u: u8, v: u8) -> bool
    ensures { result ≡ joins link u v }
{
    link == (u, v) || link == (v, u)
}

// Whether the ends of a link are two or more apart.
fn are_apart(link: (u8, u8)) -> bool
    ensures { result ≡ apart link }
{
    let (u, v) = link;
    u.abs_diff(v) >= 2
}

impl Closed {
    fn none() -> Closed
        ensures { links_of result ≡ [] }
    {
        Closed {
            links: ArrayVec::new(),
        }
    }

    fn list(&self) -> &[(u8, u8)]
        ensures { result.now ≡ links_of self.now }
    {
        self.links.as_slice()
    }

    // Whether the link between two labels is closed.
    fn holds(&self, u: u8, v: u8) -> bool
        ensures { result ≡ holds (links_of self.now) u v }
    {
        self.list().iter().any(|link| joins(*link, u, v))
    }

    // A neighbour, unless the link to it is closed.
    fn unless_closed(&self, label: u8, neighbour: u8) -> Option<u8>
        ensures { result ≡ unless_closed (links_of self.now) label (Some neighbour) }
    {
        (!self.holds(label, neighbour)).then_some(neighbour)
    }

    fn add(&mut self, link: (u8, u8))
        requires room { length (links_of self.old) < 64 }
        requires spares { apart link ≡ true }
        ensures { links_of self.new ≡ links_of self.old ++ link ∷ [] }
    {
        self.links.push(link);
    }
}

// Whether a port of `u` leads to `v`.
fn are_neighbours<F: Fabric>(fabric: &F, u: u8, v: u8) -> bool
    ensures { result ≡ neighbours (F.Fabric.meaning fabric.now).near u v }
{
    (0..8).any(|port| fabric.neighbour(u, port) == Some(v))
}

/// A fabric of which some links are closed. It is a fabric itself, in which those links are missing, in both directions.
#[derive(Drop)]
pub struct Layout<F: Fabric> {
    fabric: F,
    closed: Closed,
}

impl<F: Fabric> Fabric for Layout<F> {
    ghost meaning = { λ l. thinned_meaning (links_of l.closed) (F.Fabric.meaning l.fabric) };

    ghost lawful = { λ l. thinned_lawful (links_of l.closed) (F.Fabric.meaning l.fabric) l.closed.spared (F.Fabric.lawful l.fabric) };

    fn size(&self) -> u8 {
        self.fabric.size()
    }

    fn neighbour(&self, label: u8, port: u8) -> Option<u8>
        ensures is { result ≡ thinned (links_of self.now.closed) (F.Fabric.meaning self.now.fabric).near label port }
        ensures law { Thinned (links_of self.now.closed) (F.Fabric.meaning self.now.fabric).near label port result }
    {
        self.closed
            .unless_closed(label, self.fabric.neighbour(label, port)?)
    }
}

impl<F: Addressed> Addressed for Layout<F> {
    ghost addresses = { λ l. F.Addressed.addresses l.fabric };

    ghost distinct = { λ l. F.Addressed.distinct l.fabric };

    ghost fit = { λ l. F.Addressed.fit l.fabric };

    fn address(&self, label: u8) -> Option<u32> {
        self.fabric.address(label)
    }

    fn label_of(&self, address: u32) -> Option<u8> {
        self.fabric.label_of(address)
    }
}

impl<F: Fabric> Layout<F> {
    /// The fabric with all its links open.
    pub fn new(fabric: F) -> Layout<F>
        ensures is { (result.fabric ≡ fabric) × (links_of result.closed ≡ []) }
        ensures law { SameMeaning (thinned_meaning (links_of result.closed) (F.Fabric.meaning result.fabric)) (F.Fabric.meaning fabric) }
    {
        Layout {
            fabric,
            closed: Closed::none(),
        }
    }

    /// The closed links, in the order in which they were closed.
    pub fn closed(&self) -> &[(u8, u8)]
        ensures { result.now ≡ links_of self.now.closed }
    {
        self.closed.list()
    }

    // The questions that are put before a link is closed.
    fn may_close(&self, link: (u8, u8)) -> Result<(), Refusal>
        ensures { refusal result ≡ close_refusal (F.Fabric.meaning self.now.fabric) (links_of self.now.closed) link }
    {
        let (u, v) = link;
        if !both_exist(&self.fabric, u, v) {
            return Err(Refusal::LinkLabel);
        }
        if !are_neighbours(&self.fabric, u, v) {
            return Err(Refusal::LinkMissing);
        }
        if !are_apart(link) {
            return Err(Refusal::LinkInChain);
        }
        if self.closed.holds(u, v) {
            return Err(Refusal::LinkClosed);
        }
        if self.closed.links.is_full() {
            return Err(Refusal::LinksFull);
        }
        Ok(())
    }

    /// Closes the link between two labels, in both directions, or says why not. A refusal leaves the layout as it was.
    pub fn close(&mut self, link: (u8, u8)) -> Result<(), Refusal>
        ensures is { refusal result ≡ close_refusal (F.Fabric.meaning self.old.fabric) (links_of self.old.closed) link }
        ensures fabric { self.new.fabric ≡ self.old.fabric }
        ensures closed { links_of self.new.closed ≡ closed_after (refusal result) (links_of self.old.closed) link }
        ensures law { Closes (F.Fabric.meaning self.old.fabric) (links_of self.old.closed) link (thinned (links_of self.old.closed) (F.Fabric.meaning self.old.fabric).near) (thinned (links_of self.new.closed) (F.Fabric.meaning self.new.fabric).near) (refusal result) }
    {
        self.may_close(link)?;
        self.closed.add(link);
        Ok(())
    }
}
