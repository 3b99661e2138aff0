//! The whole system by shares, folded over the records of a trace, and the report of what they answer.

ghost use Rattle.std.specs.Prelude.{◌≡◌, ◌≤◌, ◌<◌, ◌+◌, ◌^◌, ◌++◌, ℕ, [], IfOk, List, flat_map, length, map};
ghost use Rattle.kq_model.specs.declared.event.Event.{Event};
ghost use Rattle.kq_model.specs.Limits.{IsVersion};
ghost use Rattle.kq_model.specs.Report.{report_of};
ghost use Rattle.kq_model.specs.System.{rows_after, system_after};
ghost use Rattle.kq_model.specs.Tallied.{System};
ghost use Rattle.kq_run.specs.Sharing.{IsShared};
ghost use Rattle.kq_shares.specs.Going.{events_in};
ghost use Rattle.kq_shares.specs.Whole.{AreRowsOf, AreSharesOf};

use crate::lines::with_lists;
use kq_merge::{ReportText, TextChunks};
use kq_model::{Event, Memory, Rows};
use kq_shares::{After, ShareFault, Shares};
use kq_system::Dealing;
use kq_threads::join;
use std::alloc::Global;
use std::sync::Wait;
use std::thread::Threads;

/// The shares of the system after the records so far, and the report of what they answered.
#[derive(Drop)]
pub struct SharedFold {
    pub shares: Shares,
    /// How many records there were.
    pub records: u64,
    pub text: ReportText,
    /// The last rows of each share, whose lines are not yet written.
    pub waiting: Vec<Rows>,
}

impl SharedFold {
    /// Before the first record of a trace of this version.
    pub fn new(alloc: Global, version: u32, dealing: Dealing) -> Result<Self, Memory>
        requires version { IsVersion version }
        requires count { 1 ≤ dealing.shares }
        ensures { IfOk result (λ fold. IsShared version fold []) }
    {
        let shares = Shares::new(alloc, version, dealing)?;
        let text = ReportText::new(alloc);
        let waiting = Vec::new(alloc);
        Ok(SharedFold {
            shares,
            records: 0,
            text,
            waiting,
        })
    }

    /// After these pieces of records more, each share but the first on a thread of its own. Their rows wait, and one
    /// more thread writes the lines of those that waited. Memory comes where that one does not start, too.
    pub fn after<R: AllocGlobal + Threads + Wait>(
        self,
        rt: &R,
        pieces: &[Vec<Event>],
    ) -> Result<Self, ShareFault>
        requires { (version : ℕ) × (before : List Event) × IsShared version self before
            × (length before + length (flat_map (λ piece. piece.items) pieces.now) < 2 ^ 31) }
        ensures { IfOk result (λ fold. (version : ℕ) (before : List Event) → IsShared version self before
            → IsShared version fold (before ++ flat_map (λ piece. piece.items) pieces.now)) }
    {
        let alloc = rt.alloc();
        let SharedFold {
            shares,
            records,
            text,
            waiting,
        } = self;
        let joined = join(
            rt,
            move || with_lists(alloc, text, waiting),
            move || -> Result<After, ShareFault>
                requires { (applied : ℕ) × (s : System)
                    × AreSharesOf applied s (map (λ b. b.value) shares.shares.items)
                    × (applied + length (events_in pieces.now) < 2 ^ 31) }
                ensures shares { IfOk result (λ after. (applied : ℕ) (s : System)
                    → AreSharesOf applied s (map (λ b. b.value) shares.shares.items)
                    → AreSharesOf (applied + length (events_in pieces.entry.now))
                    (system_after (applied + 1) s (events_in pieces.entry.now))
                    (map (λ b. b.value) after.shares.shares.items)) }
                ensures rows { IfOk result (λ after. (applied : ℕ) (s : System)
                    → AreSharesOf applied s (map (λ b. b.value) shares.shares.items)
                    → AreRowsOf after.lists.items (rows_after (applied + 1) s (events_in pieces.entry.now))) }
            { shares.after(rt, alloc, pieces) },
        );
        if !joined.has_started {
            return Err(ShareFault::Memory);
        }
        let text = joined.first?;
        let after = joined.second?;
        Ok(SharedFold {
            shares: after.shares,
            records: records + count(pieces),
            text,
            waiting: after.lists,
        })
    }

    /// The report of the records so far.
    pub fn report(self, alloc: Global) -> Result<TextChunks, Memory>
        ensures { IfOk result (λ text. (version : ℕ) (events : List Event) → IsShared version self events
            → text ≡ report_of version events) }
    {
        let SharedFold {
            records,
            text,
            waiting,
            ..
        } = self;
        with_lists(alloc, text, waiting)?.end_in_chunks(records)
    }
}

/// How many records these pieces have.
fn count(pieces: &[Vec<Event>]) -> u64
    requires { length (flat_map (λ piece. piece.items) pieces.now) < 2 ^ 31 }
    ensures { result ≡ length (flat_map (λ piece. piece.items) pieces.now) }
{
    let mut count = 0_u64;
    for piece in pieces {
        count += piece.len() as u64;
    }
    count
}
