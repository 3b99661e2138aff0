//! What becomes of a kqueue when a descriptor of its process is closed.

ghost use Rattle.std.specs.Prelude.{◌≡◌, ◌≤◌, ◌∷◌, []};
ghost use Rattle.kq_model.specs.Close.{closed};
ghost use Rattle.kq_model.specs.Hearing.{listed};
ghost use Rattle.kq_model.specs.Kqueue.{Kqueue};
ghost use Rattle.kq_model.specs.Recast.{tallied};
ghost use Rattle.kq_model.specs.Views.{Views};
ghost use Rattle.kq_model.specs.WatchedNumbers.{LeavesOpen, WatchTheirNumbers};
ghost use Rattle.kq_kevent.specs.Owned.{limit};

use crate::Kq;

impl Kq {
    /// A descriptor of the owner was closed: the READ, WRITE and VNODE knotes of its number are
    /// gone, also where a duplicate stays open (kqueue(2)). It takes no memory.
    pub fn closed(&mut self, number: u32)
        ensures kq { self.new.kq
            ≡ closed self.old.owner (record { pid = self.old.owner; number = number } ∷ []) self.old.kq }

        // The same in the words of the definitions, which keep all that was heard.
        ensures model { (m : Kqueue listed) → self.old.kq ≡ tallied m → self.new.kq
            ≡ tallied (closed self.old.owner (record { pid = self.old.owner; number = number } ∷ []) m) }

        // Where the READ, WRITE and VNODE knotes watched what their numbers named before a record that
        // closes this one, they watch what these name after it.
        ensures named { (before after : Views)
            → LeavesOpen before after self.old.owner (record { pid = self.old.owner; number = number } ∷ [])
            → WatchTheirNumbers before self.old.owner self.old.kq
            → WatchTheirNumbers after self.old.owner self.new.kq }

        ensures owner { self.new.owner ≡ self.old.owner }
        ensures version { self.new.version ≡ self.old.version }
        ensures room { self.old.room ≤ self.new.room }
        ensures limit { limit self.new ≡ limit self.old }
    {
        self.knotes.remove_descriptor(number);
    }
}
