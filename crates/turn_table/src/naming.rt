//! What the values under the turns stand for.
ghost use Rattle.std.specs.Prelude.{◌≡◌, ℕ, length};
ghost use Rattle.turn_table.specs.Values.{FrontMeaning, BackMeaning};

/// The entries of a history. It has no calls.
pub trait Naming {
    /// One entry of the history.
    type Entry;

    // Whose call an entry is.
    ghost caller: { Self.Entry → ℕ };
}

/// A value for the front turn. It stands for a history, a list of entries, and has handed a number
/// of batches over to the back. Its fixed part never changes, and a failure that it has stays.
pub trait Counted {
    /// The entries of its history.
    type Name: Naming;

    // Its entries, its failure, how many batches it handed over, and which values have its fixed
    // part.
    ghost means: { FrontMeaning Self Self.Name.Entry };

    /// How many entries there are.
    fn count(&self) -> u64
        ensures { result ≡ length (means.entries self.now) };

    /// The number of its failure, or 0 where there is none.
    fn failed(&self) -> u64
        ensures { result ≡ means.fault self.now };
}

/// A value for the back turn. It heard of a beginning of the history, has a number of batches due
/// from there, and wrote the first of them. Its fixed part never changes, and a failure that it has
/// stays.
pub trait Written {
    /// The entries of the history that it hears of.
    type Name: Naming;

    // What it heard of, how many batches it wrote and how many are due, its failure, and which
    // values have its fixed part.
    ghost means: { BackMeaning Self Self.Name.Entry };

    /// How many batches it wrote.
    fn count(&self) -> u64
        ensures { result ≡ means.written self.now };

    /// The number of its failure, or 0 where there is none.
    fn failed(&self) -> u64
        ensures { result ≡ means.fault self.now };
}

/// An entry of the history that a front value stands for.
pub type EntryOf<F> = <<F as Counted>::Name as Naming>::Entry;
