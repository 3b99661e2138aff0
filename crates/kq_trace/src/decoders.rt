//! The threads that decode a block.

/// The threads that decode a block, of which the calling one is the first; 0 and 1 start none.
#[derive(Debug, Drop, Clone, Copy, PartialEq, Eq)]
pub enum Decoders {
    /// At most so many, as suit the processors: one that does not start is no error.
    Pool { most: u32 },
    /// So many, where the block is large enough: one that does not start is an error.
    Started { count: u32 },
}

impl Decoders {
    /// No more than so many.
    pub(crate) fn at_most(self, threads: u32) -> Self {
        match self {
            Decoders::Pool { most } => Decoders::Pool {
                most: most.min(threads),
            },
            Decoders::Started { count } => Decoders::Started {
                count: count.min(threads),
            },
        }
    }

    /// How many they are at most.
    pub(crate) fn most(self) -> u32 {
        match self {
            Decoders::Pool { most } => most,
            Decoders::Started { count } => count,
        }
    }
}
