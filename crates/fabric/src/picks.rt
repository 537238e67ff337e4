//! The choice of the best entry: one operation for every kind of list entry.
ghost use Rattle.std.specs.Prelude.{◌≡◌, ℕ, Bool};
ghost use Rattle.fabric.specs.Options.{allowed};
ghost use Rattle.fabric.specs.Pick.{picked, Picked};
ghost use Rattle.fabric.specs.Choosing.{best};

/// An entry that may be eligible, and is better the lower it ranks.
pub trait Ranked {
    ghost eligible: { Self → Bool };

    ghost rank: { Self → ℕ };

    fn eligible(&self) -> bool
        ensures { result ≡ eligible self.now };

    fn rank(&self) -> u32
        ensures { result ≡ rank self.now };
}

// The best so far, unless the next entry is eligible and ranks lower.
fn best_with<T: Ranked + Copy>(so_far: Option<T>, entry: T) -> Option<T>
    ensures { result ≡ best T.Ranked.rank so_far (allowed (T.Ranked.eligible entry) entry) }
{
    if !entry.eligible() || so_far.is_some_and(|best| best.rank() <= entry.rank()) {
        so_far
    } else {
        Some(entry)
    }
}

/// The eligible entry of least rank, the earliest on a tie, or none where none is eligible.
pub fn pick<T: Ranked + Copy>(entries: &[T]) -> Option<T>
    ensures is { result ≡ picked T.Ranked.eligible T.Ranked.rank entries.now }
    ensures law { Picked T.Ranked.eligible T.Ranked.rank entries.now result }
{
    entries.iter().copied().fold(None, best_with)
}
