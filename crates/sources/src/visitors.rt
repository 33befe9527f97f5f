//! What is shown the entries of a row, one after the other.
ghost use Rattle.std.specs.Prelude.{◌≡◌, ℕ};

/// A value that goes along a row. It takes every entry, so that a source may be asked to show it any row.
pub trait Visitor {
    // What it is once it was shown an entry.
    ghost shown: { Self → ℕ × ℕ → Self };

    /// Sees one more entry, a pair of job and worth.
    fn see(self, entry: (usize, u64)) -> Self
        ensures { result ≡ shown self entry };
}
