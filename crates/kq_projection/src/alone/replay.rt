//! A private list is replayed to the rows of its kqueue.

ghost use Rattle.std.specs.Prelude.{IfOk};
ghost use Rattle.kq_model.specs.declared.rows.Rows as declared_rows;

use crate::alone::lone_kqueue::rows_alone;
use crate::history::Private;
use kq_model::{Memory, Rows};

/// What can be replayed to the rows of one kqueue.
pub trait Replay {
    // What it may give.
    ghost gives: { Self → declared_rows.Rows → Type 0 };

    /// The kqueue's rows, by rising place.
    fn replay(&self) -> Result<Rows, Memory>
        ensures { IfOk result (λ rows. gives self.now rows) };
}

impl<'s, 'a> Replay for Private<'s, 'a> {
    ghost use Rattle.kq_projection.specs.Replayed.{IsReplayed};

    ghost gives = { λ p rows. IsReplayed p.split.now p.kqueue rows };

    /// The rows that the kqueue gives alone: from its private list and the world at its places, and from nothing else.
    /// The cost is that of the list and of what the kqueue does.
    fn replay(&self) -> Result<Rows, Memory> {
        let rows = rows_alone(self.split(), self.owner(), self.items())?;
        Ok(Rows {
            kqueue: self.kqueue(),
            rows,
        })
    }
}
