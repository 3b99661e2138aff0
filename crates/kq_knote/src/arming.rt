//! Alarms added for knotes: for one that is new or changed, for all, and for those that were due.

ghost use Rattle.std.specs.Prelude.{◌≡◌, ◌<◌, ◌≤◌, ◌+◌, true};
ghost use Rattle.kq_alarm.specs.Armed.{HasAlarm};
ghost use Rattle.kq_model.specs.Kqueue.{HaveOwnKeys};
ghost use Rattle.kq_model.specs.Ticks.{last_moment};
ghost use Rattle.kq_knote.specs.Expiring.{AreAlarmed, AreArmed, AreKept, IsAlarmed, next_of};

use crate::Knote;
use crate::expiring::LAST_MOMENT;
use kq_alarm::{Alarm, Alarms};
use kq_model::Key;
use kq_table::Table;

/// Adds the alarm of a timer at this moment, where it is one of the clock's. False where there is no
/// room for it.
pub(crate) fn put_alarm(alarms: &mut Alarms, ident: u64, moment: u64) -> bool
    ensures kept { AreKept alarms.old.entries alarms.new.entries }
    ensures here { result ≡ true → moment ≤ last_moment → HasAlarm alarms.new.entries moment ident }
{
    if LAST_MOMENT < moment {
        return true;
    }
    if alarms.room() == 0 {
        return false;
    }
    alarms.add(Alarm { moment, ident });
    true
}

/// Adds the alarm of a new knote, and says whether the alarms are whole after it.
pub(crate) fn put_new(alarms: &mut Alarms, whole: bool, ident: u64, moment: u64) -> bool
    ensures kept { AreKept alarms.old.entries alarms.new.entries }
    ensures whole { result ≡ true → whole ≡ true }
    ensures here { result ≡ true → moment ≤ last_moment → HasAlarm alarms.new.entries moment ident }
{
    if !whole {
        return false;
    }
    put_alarm(alarms, ident, moment)
}

/// Adds the alarm of a knote that comes in the place of another of its key, and notes that it may be the soonest to
/// expire after `since`; nothing, where it expires when the other does. It says whether the alarms are whole after it.
pub(crate) fn put_changed(
    before: &Knote,
    knote: &Knote,
    since: u64,
    soonest: &mut u64,
    alarms: &mut Alarms,
    whole: bool,
) -> bool
    requires begun { since ≤ last_moment }
    requires one_key { before.now.key ≡ knote.now.key }
    ensures kept { AreKept alarms.old.entries alarms.new.entries }
    ensures whole { result ≡ true → whole ≡ true }
    ensures here { result ≡ true → IsAlarmed alarms.old.entries (next_of since before.now) before.now
        → IsAlarmed alarms.new.entries (next_of since knote.now) knote.now }
    ensures sooner { soonest.new ≤ soonest.old }
    ensures quiet { soonest.old ≤ next_of since before.now → soonest.new ≤ next_of since knote.now }
{
    if knote.rings_with(before) {
        return whole;
    }
    let first = knote.first_after(since);
    *soonest = (*soonest).min(first);
    put_new(alarms, whole, knote.key.ident, first)
}

/// Adds the alarms of all knotes at their first expirations after `since`. False where there is no
/// room for them.
pub(crate) fn arm_all(rows: &Table<Knote>, since: u64, alarms: &mut Alarms) -> bool
    requires own_keys { HaveOwnKeys rows.now.rows }
    requires begun { since ≤ last_moment }
    ensures { result ≡ true → AreAlarmed since alarms.new.entries rows.now.rows }
{
    let mut next = rows.first();
    for _step in 0..rows.len() {
        let Some(knote) = next else {
            return true;
        };
        let first = knote.first_after(since);
        if !put_alarm(alarms, knote.key.ident, first) {
            return false;
        }
        next = rows.next_after(knote.key);
    }
    true
}

/// Adds the alarms of the knotes of these keys at their first expirations after `to`. False where
/// there is no room for them.
pub(crate) fn arm_due(rows: &Table<Knote>, due: &[Key], to: u64, alarms: &mut Alarms) -> bool
    requires own_keys { HaveOwnKeys rows.now.rows }
    requires within { to ≤ last_moment }
    ensures kept { AreKept alarms.old.entries alarms.new.entries }
    ensures armed { result ≡ true → AreArmed to due.now alarms.new.entries rows.now.rows }
{
    for key in due {
        let Some(knote) = rows.look_at(rows.guess(*key), *key) else {
            return false;
        };
        let first = knote.first_after(to);
        if !put_alarm(alarms, key.ident, first) {
            return false;
        }
    }
    true
}
