//! A guess of where a row stands, and the rows and keys that are given with one.

ghost use Rattle.std.specs.Prelude.{◌≡◌};

/// The slot where a row stands: a guess, since any place may be given with any key. Where the row of
/// the key does not stand there, it is looked up.
#[derive(Debug, Drop, Clone, Copy)]
pub struct Place {
    pub(crate) slot: usize,
}

impl Place {
    /// A place where no row is ever found.
    pub fn nowhere() -> Self
        ensures { result.slot ≡ usize.MAX }
    {
        Place { slot: usize::MAX }
    }
}

/// A row, with the place where it stands.
#[derive(Debug, Drop, Clone, Copy)]
pub struct Placed<T> {
    pub row: T,
    pub place: Place,
}

/// The key of a row that watches a target, with the place where the row stands.
#[derive(Debug, Drop, Clone, Copy)]
pub struct Watcher<K> {
    pub key: K,
    pub place: Place,
}
