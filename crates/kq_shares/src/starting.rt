//! The threads in which shares go over some records.

ghost use Rattle.std.specs.Prelude.{◌≡◌, ◌≤◌, All, IfOk, false, length, map};
ghost use Rattle.kq_shares.specs.Going.{events_in, HasGone, HasPlaces, HaveGone};

use crate::going::{Gone, go_over};
use kq_model::{Event, Memory};
use kq_system::Share;
use kq_threads::join;
use std::alloc::Global;
use std::sync::Wait;
use std::thread::Threads;

/// Shares that went over some records.
#[derive(Drop)]
pub struct AllGone {
    pub gone: Vec<Gone>,
    /// Whether each but the first had a thread of its own.
    pub have_started: bool,
}

/// Takes all these shares past these pieces of records: the first one on the calling thread, and each further one on a
/// thread of its own or, where none can be made, on the calling one. Each level starts one, has the next level run, and
/// joins its own.
pub fn go_all<R: Threads + Wait>(
    rt: &R,
    alloc: Global,
    mut shares: Vec<Box<Share>>,
    pieces: &[Vec<Event>],
) -> Result<AllGone, Memory>
    requires { All (λ s. HasPlaces (length (events_in pieces.now)) s.value) shares.items }
    ensures gone { IfOk result (λ all.
        HaveGone (map (λ s. s.value) shares.items) (events_in pieces.now) all.gone.items) }
    ensures started { IfOk result (λ all. all.have_started ≡ false → 2 ≤ length shares.items) }
{
    let Some(share) = shares.pop() else {
        return Ok(AllGone {
            gone: Vec::new(alloc),
            have_started: true,
        });
    };
    if shares.is_empty() {
        let mut gone = Vec::new(alloc);
        gone.push(go_over(alloc, share, pieces)?)?;
        return Ok(AllGone {
            gone,
            have_started: true,
        });
    }
    let joined = join(
        rt,
        move || -> Result<Gone, Memory>
            requires { HasPlaces (length (events_in pieces.now)) share.value }
            ensures { IfOk result (λ gone.
                HasGone share.value (events_in pieces.entry.now) gone.share.value gone.rows.items) }
        { go_over(alloc, share, pieces) },
        move || -> Result<AllGone, Memory>
            requires { All (λ s. HasPlaces (length (events_in pieces.now)) s.value) shares.items }
            ensures { IfOk result (λ all.
                HaveGone (map (λ s. s.value) shares.items) (events_in pieces.entry.now) all.gone.items) }
        { go_all(rt, alloc, shares, pieces) },
    );
    let AllGone {
        mut gone,
        have_started,
    } = joined.second?;
    gone.push(joined.first?)?;
    Ok(AllGone {
        gone,
        have_started: both(have_started, joined.has_started),
    })
}

/// Whether both are true. A function for the prover alone: it sees one value where `&&` gives it two cases.
fn both(a: bool, b: bool) -> bool {
    a && b
}
