//! The order of the queue: a look at it, and another order of it.

ghost use Rattle.std.specs.Prelude.{◌≡◌, ◌++◌, [], length, slice_get};
ghost use Rattle.std.specs.Prelude.{IfOk, IsPermutation};
ghost use Rattle.kq_model.specs.Hearing.{listed};
ghost use Rattle.kq_model.specs.Kqueue.{AreOnce, Kqueue};
ghost use Rattle.kq_model.specs.Recast.{tallied};
ghost use Rattle.kq_kevent.specs.Arranged.{AreAllIn, arranged, key_after, without_keys};

use crate::Kq;
use kq_knote::Knotes;
use kq_model::{Key, Memory};

/// Takes these keys to the front of the queue, where they are in it, from the last one to the first.
fn put_all_first(knotes: &mut Knotes, keys: &[Key])
    ensures queue { knotes.new.queue ≡ arranged keys.now knotes.old.queue }
    ensures knotes { knotes.new.knotes ≡ knotes.old.knotes }
    ensures room { knotes.new.room ≡ knotes.old.room }
{
    for at in (0..keys.len()).rev() {
        let key = keys[at];
        knotes.put_first_at(knotes.guess(key), key);
    }
}

impl Kq {
    /// Puts these keys of the queue first, in this order, and the others behind them as they stood. A key
    /// that is not in the queue is passed over, and one that is named again counts where it is named first.
    /// Nothing else changes. It takes no memory; it costs a few steps for each key that is named.
    pub fn put_first(&mut self, keys: &[Key])
        ensures kq { self.new.kq ≡ record self.old.kq { queue = arranged keys.now self.old.kq.queue } }

        // It is another order of the same keys: these and then the others, where they are keys of the queue
        // and none stands twice; and with none the order is as it was.
        ensures same { IsPermutation self.old.kq.queue self.new.kq.queue }
        ensures first { AreOnce keys.now → AreAllIn keys.now self.old.kq.queue
            → self.new.kq.queue ≡ keys.now ++ without_keys keys.now self.old.kq.queue }
        ensures none { keys.now ≡ [] → self.new.kq ≡ self.old.kq }

        // The same in the words of the definitions, which keep all that was heard.
        ensures model { (m : Kqueue listed) → self.old.kq ≡ tallied m
            → self.new.kq ≡ tallied (record m { queue = arranged keys.now m.queue }) }

        ensures owner { self.new.owner ≡ self.old.owner }
        ensures version { self.new.version ≡ self.old.version }
        ensures room { self.new.room ≡ self.old.room }
    {
        put_all_first(&mut self.knotes, keys);
    }

    /// How many keys the queue has. None stands in it twice.
    pub fn waiting_len(&self) -> usize
        ensures len { result ≡ length self.now.kq.queue }
        // Of every kqueue.
        ensures once { AreOnce self.now.kq.queue }
    {
        self.knotes.queue_len()
    }

    /// The key that is at the front of the queue, whose knote a retrieval looks at first.
    pub fn first_waiting(&self) -> Option<Key>
        ensures { result ≡ slice_get self.now.kq.queue 0 }
    {
        self.knotes.front()
    }

    /// The key that stands behind this one in the queue; none where this is the last, or not there.
    pub fn waiting_after(&self, key: Key) -> Option<Key>
        ensures { result ≡ key_after key self.now.kq.queue }
    {
        self.knotes.behind(key)
    }

    /// The keys of the queue, in the order in which a retrieval looks at their knotes: of each knote that is
    /// active and enabled, once.
    pub fn waiting(&self) -> Result<Vec<Key>, Memory>
        ensures { IfOk result (λ keys. keys.items ≡ self.now.kq.queue) }
    {
        let waiting = self.knotes.queue_len();
        let mut keys = Vec::with_capacity(self.knotes.allocator(), waiting)?;
        let mut next = self.knotes.front();
        for _turn in 0..waiting {
            let Some(key) = next else {
                unreachable!();
            };
            keys.push_reserved(key);
            next = self.knotes.behind(key);
        }
        Ok(keys)
    }
}
