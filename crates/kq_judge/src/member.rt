//! In which member two events of a kevent differ, but for members that are not compared.

ghost use Rattle.std.specs.Prelude.{◌≡◌, IsTrue, false, MatchBool, MatchOption};
ghost use Rattle.kq_model.specs.CallLaws.{key_of_event};
ghost use Rattle.kq_judge.specs.Same.{ignores, is_ignored, AgreeOn, IsSame, IsFirstDifference};

use kq_model::{Filter, Kevent};

/// A member of an event (kqueue(2), struct kevent) besides its ident and its filter, which name it.
#[derive(Debug, Drop, Clone, Copy, PartialEq, Eq)]
pub enum Member {
    Flags,
    Fflags,
    /// The manual's data.
    Datum,
    Udata,
}

/// A member that is not compared in the events of a filter, as WRITE's data, since kernels count buffers differently.
#[derive(Debug, Drop, Clone, Copy, PartialEq, Eq)]
pub struct Ignored {
    pub filter: Filter,
    pub member: Member,
}

impl Ignored {
    /// Whether it is this member of the events of this filter.
    fn is(&self, filter: Filter, member: Member) -> bool
        ensures { result ≡ ignores filter member self.now }
    {
        filter == self.filter && member == self.member
    }
}

/// Whether a member is not compared in the events of a filter.
fn is_ignored(ignored: &[Ignored], filter: Filter, member: Member) -> bool
    ensures { result ≡ is_ignored ignored.now filter member }
{
    ignored.iter().any(|i| i.is(filter, member))
}

/// Whether two events agree on a member.
fn agree_on(member: Member, expected: &Kevent, own: &Kevent) -> bool
    ensures { MatchBool result (AgreeOn member expected.now own.now) (AgreeOn member expected.now own.now → ⊥) }
{
    match member {
        Member::Flags => expected.flags == own.flags,
        Member::Fflags => expected.fflags == own.fflags,
        Member::Datum => expected.datum == own.datum,
        Member::Udata => expected.udata == own.udata,
    }
}

/// Whether two events differ in a member that is compared.
fn is_wrong(member: Member, expected: &Kevent, own: &Kevent, ignored: &[Ignored]) -> bool
    ensures { MatchBool result
        ((is_ignored ignored.now own.now.filter member ≡ false) × (AgreeOn member expected.now own.now → ⊥))
        (is_ignored ignored.now own.now.filter member ≡ false → AgreeOn member expected.now own.now) }
{
    !agree_on(member, expected, own) && !is_ignored(ignored, own.filter, member)
}

/// The first member that is compared and in which two events of one kevent differ.
pub fn differing(expected: &Kevent, own: &Kevent, ignored: &[Ignored]) -> Option<Member>
    requires { key_of_event expected.now ≡ key_of_event own.now }
    ensures { MatchOption result (IsSame ignored.now expected.now own.now)
        (IsFirstDifference ignored.now expected.now own.now) }
{
    if is_wrong(Member::Flags, expected, own, ignored) {
        return Some(Member::Flags);
    }
    if is_wrong(Member::Fflags, expected, own, ignored) {
        return Some(Member::Fflags);
    }
    if is_wrong(Member::Datum, expected, own, ignored) {
        return Some(Member::Datum);
    }
    if is_wrong(Member::Udata, expected, own, ignored) {
        return Some(Member::Udata);
    }
    None
}
