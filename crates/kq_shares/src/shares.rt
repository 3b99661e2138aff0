//! All shares of a system.

ghost use Rattle.std.specs.Prelude.{◌≡◌, ◌≤◌, ◌<◌, ◌+◌, ◌^◌, Err, IfOk, length, map, ℕ};
ghost use Rattle.kq_model.specs.Limits.{IsVersion};
ghost use Rattle.kq_model.specs.System.{empty_system, rows_after, system_after};
ghost use Rattle.kq_model.specs.Tallied.{System};
ghost use Rattle.kq_shares.specs.Going.{events_in};
ghost use Rattle.kq_shares.specs.Whole.{AreRowsOf, AreSharesOf};

use crate::fault::ShareFault;
use crate::going::Gone;
use crate::starting::go_all;
use kq_model::{Event, Memory, Rows, Series};
use kq_system::{Dealing, Share};
use std::alloc::Global;
use std::sync::Wait;
use std::thread::Threads;

/// All shares of a system, from the first on.
#[derive(Drop)]
pub struct Shares {
    pub shares: Vec<Box<Share>>,
}

/// The shares after some records more, and what each answered to these.
#[derive(Drop)]
pub struct After {
    pub shares: Shares,
    /// The rows of each share.
    pub lists: Vec<Rows>,
}

impl Shares {
    /// The shares of the system before the first record of a trace of this version.
    pub fn new(alloc: Global, version: u32, dealing: Dealing) -> Result<Self, Memory>
        requires version { IsVersion version }
        requires count { 1 ≤ dealing.shares }
        ensures { IfOk result (λ s. AreSharesOf 0 (empty_system version) (map (λ b. b.value) s.shares.items)) }
    {
        let mut shares = Vec::new(alloc);
        for number in 0..dealing.shares {
            let share = Share::new(alloc, version, number, dealing)?;
            shares.push(Box::new(alloc, share)?)?;
        }
        Ok(Shares { shares })
    }

    /// How many they are.
    pub fn count(&self) -> usize
        ensures { result ≡ length self.now.shares.items }
    {
        self.shares.len()
    }

    /// The shares after these pieces of records more. All take the records at the same time, the first on the calling
    /// thread and each other one on a thread of its own. Their rows together are those of the whole system; `merge`
    /// of kq_merge brings them into order.
    ///
    /// Spawn: a thread was not started. After an error the shares are gone.
    pub fn after<R: Threads + Wait>(
        self,
        rt: &R,
        alloc: Global,
        pieces: &[Vec<Event>],
    ) -> Result<After, ShareFault>
        requires { (applied : ℕ) × (s : System) × AreSharesOf applied s (map (λ b. b.value) self.shares.items)
            × (applied + length (events_in pieces.now) < 2 ^ 31) }
        ensures shares { IfOk result (λ after. (applied : ℕ) (s : System)
            → AreSharesOf applied s (map (λ b. b.value) self.shares.items)
            → AreSharesOf (applied + length (events_in pieces.now))
            (system_after (applied + 1) s (events_in pieces.now)) (map (λ b. b.value) after.shares.shares.items)) }
        ensures rows { IfOk result (λ after. (applied : ℕ) (s : System)
            → AreSharesOf applied s (map (λ b. b.value) self.shares.items)
            → AreRowsOf after.lists.items (rows_after (applied + 1) s (events_in pieces.now))) }
        ensures spawn { result ≡ Err ShareFault.Spawn → 2 ≤ length self.shares.items }
    {
        let all = go_all(rt, alloc, self.shares, pieces)?;
        if !all.have_started {
            return Err(ShareFault::Spawn);
        }
        Ok(parted(alloc, all.gone)?)
    }
}

/// The shares, and the rows of each.
fn parted(alloc: Global, gone: Vec<Gone>) -> Result<After, Memory>
    ensures shares { IfOk result (λ after. after.shares.shares.items ≡ map (λ g. g.share) gone.items) }
    ensures rows { IfOk result (λ after. map (λ k. k.rows) after.lists.items ≡ map (λ g. g.rows.items) gone.items) }
{
    let mut shares = Vec::with_capacity(alloc, gone.len())?;
    let mut lists = Vec::with_capacity(alloc, gone.len())?;
    let mut kqueue = 0;
    for one in gone {
        let Gone { share, rows } = one;
        shares.push(share)?;
        lists.push(Rows {
            kqueue,
            rows: Series::from_vec(rows),
        })?;
    }
    Ok(After {
        shares: Shares { shares },
        lists,
    })
}
