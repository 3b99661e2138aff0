//! What stands at a slot: a row, its links in three threads, and its number.

ghost use Rattle.std.specs.Prelude.{◌≡◌, None};

/// The slots before a slot and behind it.
#[derive(Drop, Clone, Copy)]
pub struct Links {
    pub(crate) before: Option<usize>,
    pub(crate) after: Option<usize>,
}

/// The first slot and the last one.
#[derive(Drop, Clone, Copy)]
pub struct Ends {
    pub(crate) first: Option<usize>,
    pub(crate) last: Option<usize>,
}

impl Ends {
    pub(crate) fn none() -> Ends
        ensures { result ≡ record { first = None; last = None } }
    {
        Ends {
            first: None,
            last: None,
        }
    }
}

/// What links slots: the order of attachment, the target that their rows watch, and the queue.
#[derive(Drop, Clone, Copy)]
pub enum Thread {
    Order,
    Watch,
    Queue,
}

/// A row with its links.
// Fields lie in memory in the order of the source: what a turn of the queue reads stands side by side.
#[derive(Drop)]
pub struct Node<T> {
    /// None where its key is not in the queue.
    pub(crate) queue: Option<Links>,
    pub(crate) row: T,
    /// Nothing where the row watches nothing that others watch.
    pub(crate) watch: Links,
    /// It rises in the order of attachment.
    pub(crate) born: u64,
    pub(crate) order: Links,
}

/// No slots before and behind.
pub(crate) fn no_links() -> Links
    ensures { result ≡ record { before = None; after = None } }
{
    Links {
        before: None,
        after: None,
    }
}

impl<T: Copy> Node<T> {
    /// A row that is linked nowhere.
    pub(crate) fn new(row: T, born: u64) -> Node<T>
        ensures { result ≡ record {
          row = row;
          born = born;
          order = record { before = None; after = None };
          watch = record { before = None; after = None };
          queue = None;
        } }
    {
        Node {
            row,
            born,
            order: no_links(),
            watch: no_links(),
            queue: None,
        }
    }
}
