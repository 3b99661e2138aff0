//! One kqueue goes on alone, from item to item of its private list, and gives its rows.

ghost use Rattle.std.specs.Prelude.{◌≡◌, ◌≤◌, ◌++◌, ℕ, pos, All, List, length, IfOk, OnOk};
ghost use Rattle.kq_model.specs.declared.change.Change.{Change};
ghost use Rattle.kq_model.specs.System.{row_of};
ghost use Rattle.kq_model.specs.Ticks.{last_moment};
ghost use Rattle.kq_projection.specs.declared.history.item.What.TheVariants as what_of;
ghost use Rattle.kq_projection.specs.Traced.{event_at};
ghost use Rattle.kq_projection.specs.LoneKqueue.{after_item, after_items, arrived, called, gone_on, heard, unborn};
ghost use Rattle.kq_projection.specs.Recorded.{IsCallOf, IsClockOf, IsRecorded};

use crate::history::{Item, Split, What};
use kq_kevent::Kq;
use kq_model::{Event, Hint, Memory, Reply, Row, Series, Target};
use std::marker::Model;

/// The last moment of the clock, in ns.
const LAST_MOMENT: u64 = i64::MAX as u64;

/// A kqueue that goes on alone, from one item of its private list to the next.
#[derive(Drop)]
pub struct LoneKqueue<'s, 'a> {
    split: &'s Split<'a>,
    /// That of the last item.
    place: u64,
    kq: Kq,
    /// The hints that came there, which are heard together.
    told: Vec<(Target, Hint)>,
    rows: Vec<Row>,
}

impl<'s, 'a> Model for LoneKqueue<'s, 'a> {
    ghost use Rattle.std.specs.Prelude.{◌≡◌};
    ghost use Rattle.kq_projection.specs.LoneKqueue.{LoneKqueue as State};

    ghost Value = { State };

    ghost view = { λ a. record {
      trace = a.split.now;
      owner = a.kq.owner;
      place = a.place;
      told = a.told.items;
      kq = a.kq.kq;
      rows = a.rows.items;
    } };

    ghost invariant = { λ a. a.kq.version ≡ a.split.now.version };
}

impl<'s, 'a> LoneKqueue<'s, 'a> {
    /// A kqueue of this process, before the first record.
    pub fn new(split: &'s Split<'a>, owner: u32) -> Self
        ensures { result ≡ unborn split.now owner }
    {
        let alloc = split.allocator();
        LoneKqueue {
            split,
            place: 0,
            kq: Kq::in_version(alloc, owner, split.version()),
            told: Vec::new(alloc),
            rows: Vec::new(alloc),
        }
    }

    /// Its rows so far.
    pub fn into_rows(self) -> Series<Row>
        ensures { result ≡ self.entry.rows }
    {
        let LoneKqueue { rows, .. } = self;
        Series::from_vec(rows)
    }

    /// The kqueue after one item more.
    #[tactic(auto, unfolding(crate::specs::LoneKqueue::after_item, crate::specs::LoneKqueue::gone_on))]
    fn go_on(&mut self, item: Item) -> Result<(), Memory>
        requires { IsRecorded self.old.trace item }
        ensures { OnOk result (self.new ≡ after_item item self.old) }
    {
        self.arrive(item.place)?;
        match item.what {
            What::Closed { pid, number } => {
                self.close(pid, number);
                Ok(())
            }
            What::Told { target, hint } => self.tell(target, hint),
            What::Clocked { from, to } => self.clock(from, to),
            What::Called { .. } => self.call(),
        }
    }

    /// An item of this place comes next.
    #[tactic(auto, unfolding(crate::specs::LoneKqueue::arrived))]
    fn arrive(&mut self, place: u64) -> Result<(), Memory>
        ensures { OnOk result (self.new ≡ arrived place self.old) }
    {
        if place != self.place {
            self.hear()?;
            self.place = place;
        }
        Ok(())
    }

    /// The hints so far are heard, in the world after their record. Room for the children that are
    /// followed is made first.
    fn hear(&mut self) -> Result<(), Memory>
        ensures { OnOk result (self.new ≡ heard self.old) }
    {
        if self.told.is_empty() {
            return Ok(());
        }
        self.kq.reserve_to_follow(self.told.as_slice())?;
        let views = self.split.at(self.place);
        self.kq.notify(self.told.as_slice(), &views);
        self.told.clear();
        Ok(())
    }

    /// A number of a process was closed.
    #[tactic(auto, unfolding(crate::specs::LoneKqueue::gone_on))]
    fn close(&mut self, pid: u32, number: u32)
        ensures { self.new ≡ gone_on (what_of.Closed pid number) self.old }
    {
        if pid == self.kq.owner() {
            self.kq.closed(number);
        }
    }

    /// There is a hint for a target.
    #[tactic(auto, unfolding(crate::specs::LoneKqueue::gone_on))]
    fn tell(&mut self, target: Target, hint: Hint) -> Result<(), Memory>
        ensures { OnOk result (self.new ≡ gone_on (what_of.Told target hint) self.old) }
    {
        Ok(self.told.push((target, hint))?)
    }

    /// The clock goes on from a moment to another, in ns.
    #[tactic(auto, unfolding(crate::specs::LoneKqueue::gone_on))]
    fn clock(&mut self, from: u64, to: u64) -> Result<(), Memory>
        requires { IsClockOf (event_at self.old.trace self.old.place) from to }
        ensures { OnOk result (self.new ≡ gone_on (what_of.Clocked from to) self.old) }
    {
        self.hear()?;
        let moment = self.moment(to);
        self.kq.clock(from as i64, moment);
        Ok(())
    }

    /// The moment to which the record of this place has the clock go on. The type of a record keeps it
    /// in range, and that of an item does not.
    fn moment(&self, to: u64) -> i64
        requires { (from : ℕ) × IsClockOf (event_at self.now.trace self.now.place) from to }
        ensures moment { result ≡ pos to }
        ensures within { to ≤ last_moment }
    {
        if to <= LAST_MOMENT {
            return to as i64;
        }
        let Some(event) = self.split.event(self.place) else {
            unreachable!();
        };
        let Event::Clock { ns } = event else {
            unreachable!();
        };
        *ns
    }

    /// The call that the record is, and its row.
    #[tactic(auto, unfolding(crate::specs::LoneKqueue::called))]
    fn call(&mut self) -> Result<(), Memory>
        requires { (changes : List Change) × (room : ℕ)
            × IsCallOf (event_at self.old.trace self.old.place) changes room }
        ensures { OnOk result (self.new ≡ called (event_at self.old.trace self.old.place) (heard self.old)) }
    {
        self.hear()?;
        let Some(event) = self.split.event(self.place) else {
            unreachable!();
        };
        let Event::Kevent { changes, room, .. } = event else {
            unreachable!();
        };
        let views = self.split.at(self.place);
        let reply = self.kq.call(changes.as_slice(), *room, &views)?;
        put_row(&mut self.rows, self.place, reply)
    }
}

/// The rows that a kqueue of this process gives alone, from these items. Memory: a growth was refused.
pub fn rows_alone(split: &Split, owner: u32, items: &[Item]) -> Result<Series<Row>, Memory>
    requires { All (IsRecorded split.now) items.now }
    ensures { IfOk result (λ rows. rows ≡ (after_items items.now (unborn split.now owner)).rows) }
{
    let mut alone = LoneKqueue::new(split, owner);
    for item in items {
        alone.go_on(*item)?;
    }
    Ok(alone.into_rows())
}

/// Adds the row of the reply to the record at a place, if it has one.
fn put_row(rows: &mut Vec<Row>, at: u64, reply: Reply) -> Result<(), Memory>
    ensures { OnOk result (rows.new.items ≡ rows.old.items ++ row_of at reply) }
{
    match reply {
        Reply::Done => Ok(()),
        reply => rows.push(Row { at, reply }).map_err(|_| Memory),
    }
}
