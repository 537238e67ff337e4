//! What a fabric means, and what an addressed fabric means besides.
ghost use Rattle.std.specs.Prelude.{◌≡◌, ℕ, List, length};
ghost use Rattle.std.specs.List.{slice_get};
ghost use Rattle.fabric.specs.Fabrics.{Meaning, Lawful, AllDifferent, AllFit, label_with, Located};

/// From 1 to 128 nodes, labelled from 0 without gaps, each with ports 0 to 7 that may lead to neighbours.
/// Its meaning is the number of nodes and the answers for each label and port.
pub trait Fabric {
    ghost meaning: { Self → Meaning };

    /// The number of nodes.
    fn size(&self) -> u8
        ensures { result ≡ (meaning self.now).nodes };

    /// The label that a port leads to, or none; none too where the label or the port does not exist.
    fn neighbour(&self, label: u8, port: u8) -> Option<u8>
        ensures { result ≡ (meaning self.now).near label port };

    ghost lawful: { (f : Self) → Lawful (meaning f) };
}

/// A fabric that also gives each label an address of 32 bits.
/// Its own meaning is the list of the addresses, label by label.
pub trait Addressed: Fabric {
    ghost addresses: { Self → List ℕ };

    /// The address of a label, or none where it does not exist.
    fn address(&self, label: u8) -> Option<u32>
        ensures is { result ≡ slice_get (addresses self.now) label }
        ensures long { length (addresses self.now) ≡ (Self.Fabric.meaning self.now).nodes };

    /// The label that has an address, or none where none has it.
    fn label_of(&self, address: u32) -> Option<u8>
        ensures is { result ≡ label_with (addresses self.now) address }
        ensures law { Located (addresses self.now) address result }
        ensures long { length (addresses self.now) ≡ (Self.Fabric.meaning self.now).nodes };

    ghost distinct: { (f : Self) → AllDifferent (addresses f) };

    ghost fit: { (f : Self) → AllFit (addresses f) };
}
