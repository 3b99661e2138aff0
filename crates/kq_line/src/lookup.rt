//! Typed look-ups among the members that were found. Each gives `None` where the member is missing or is not
//! of the type asked for.

ghost use Rattle.std.specs.Prelude.{◌≡◌, IfSome, Some, is_some};
ghost use Rattle.serde_json.specs.Data.{Members};
ghost use Rattle.kq_model.specs.Members.{has_member, member_count};
ghost use Rattle.kq_model.specs.Names.{filter_named, mode_named, note_named, side_named};
ghost use Rattle.serde_json.specs.Data.{object};
ghost use Rattle.kq_line.specs.Shows.{Shows, piece_in};
ghost use Rattle.kq_line.specs.Typed.{AreChanges, AreFlags, IsFilter, IsI64, IsI64OrZero, IsMode, IsMoment, IsNote};
ghost use Rattle.kq_line.specs.Typed.{IsSide, IsText, IsTruth, IsU32, IsU32OrZero, IsU64, IsU64OrZero};

use crate::cursor::{is, same};
use crate::found::Found;
use crate::numbers::{below, signed};
use crate::piece::Piece;
use kq_model::{Change, EvFlags, Filter, Mode, Note, Side};

impl<'a> Found<'a> {
    /// The piece of this name.
    #[inline(always)]
    pub fn piece(&self, name: &[u8]) -> Option<Piece<'a>>
        ensures { result ≡ piece_in self.now.members.items name.now }
    {
        for member in self.members.as_slice() {
            if same(member.name, name) {
                return Some(member.piece);
            }
        }
        None
    }

    /// How many members there are.
    pub fn width(&self) -> usize
        ensures { (ms : Members) → Shows self.now ms → result ≡ member_count ms }
    {
        self.members.len()
    }

    /// A name or another text without escapes.
    pub fn text_at(&self, name: &[u8]) -> Option<&'a [u8]>
        ensures { IfSome result (λ text. (ms : Members) → Shows self.now ms → IsText ms name.now text.now) }
    {
        match self.piece(name)? {
            Piece::Name(text) => Some(text),
            _ => None,
        }
    }

    pub fn u32_at(&self, name: &[u8]) -> Option<u32>
        ensures { IfSome result (λ n. (ms : Members) → Shows self.now ms → IsU32 ms name.now n) }
    {
        match self.piece(name)? {
            Piece::Number(number) => u32::try_from(number).ok(),
            _ => None,
        }
    }

    pub fn u64_at(&self, name: &[u8]) -> Option<u64>
        ensures { IfSome result (λ n. (ms : Members) → Shows self.now ms → IsU64 ms name.now n) }
    {
        match self.piece(name)? {
            Piece::Number(number) => Some(number),
            _ => None,
        }
    }

    /// 0 where the member is missing.
    pub fn u32_or_zero(&self, name: &[u8]) -> Option<u32>
        ensures { IfSome result (λ n. (ms : Members) → Shows self.now ms → IsU32OrZero ms name.now n) }
    {
        match self.piece(name) {
            Some(Piece::Number(number)) => u32::try_from(number).ok(),
            Some(_) => None,
            None => Some(0),
        }
    }

    /// 0 where the member is missing.
    pub fn u64_or_zero(&self, name: &[u8]) -> Option<u64>
        ensures { IfSome result (λ n. (ms : Members) → Shows self.now ms → IsU64OrZero ms name.now n) }
    {
        match self.piece(name) {
            Some(Piece::Number(number)) => Some(number),
            Some(_) => None,
            None => Some(0),
        }
    }

    /// 0 where the member is missing.
    pub fn i64_or_zero(&self, name: &[u8]) -> Option<i64>
        ensures { IfSome result (λ z. (ms : Members) → Shows self.now ms → IsI64OrZero ms name.now z) }
    {
        match self.piece(name) {
            Some(Piece::Number(number)) => signed(number),
            Some(Piece::Below(far)) => below(far),
            Some(_) => None,
            None => Some(0),
        }
    }

    /// Whether there is a member of this name.
    pub fn has(&self, name: &[u8]) -> bool
        ensures found { result ≡ is_some (piece_in self.now.members.items name.now) }
        ensures there { (ms : Members) → Shows self.now ms → result ≡ has_member (object ms) name.now }
    {
        self.piece(name).is_some()
    }

    /// The filter that the member names.
    pub fn filter_at(&self, name: &[u8]) -> Option<Filter>
        ensures { IfSome result (λ filter. (ms : Members) → Shows self.now ms → IsFilter ms name.now filter) }
    {
        filter_named(self.text_at(name)?)
    }

    /// A whole number with a sign.
    pub fn i64_at(&self, name: &[u8]) -> Option<i64>
        ensures { IfSome result (λ z. (ms : Members) → Shows self.now ms → IsI64 ms name.now z) }
    {
        match self.piece(name)? {
            Piece::Number(number) => signed(number),
            Piece::Below(far) => below(far),
            _ => None,
        }
    }

    /// A moment of the clock, in ns: a whole number from 0 to 2^63 - 1.
    pub fn moment_at(&self, name: &[u8]) -> Option<i64>
        ensures { IfSome result (λ z. (ms : Members) → Shows self.now ms → IsMoment ms name.now z) }
    {
        match self.piece(name)? {
            Piece::Number(number) => signed(number),
            _ => None,
        }
    }

    pub fn truth_at(&self, name: &[u8]) -> Option<bool>
        ensures { IfSome result (λ truth. (ms : Members) → Shows self.now ms → IsTruth ms name.now truth) }
    {
        match self.piece(name)? {
            Piece::Truth(truth) => Some(truth),
            _ => None,
        }
    }

    /// The mode that the member names.
    pub fn mode_at(&self, name: &[u8]) -> Option<Mode>
        ensures { IfSome result (λ mode. (ms : Members) → Shows self.now ms → IsMode ms name.now mode) }
    {
        mode_named(self.text_at(name)?)
    }

    /// The note that the member names.
    pub fn note_at(&self, name: &[u8]) -> Option<Note>
        ensures { IfSome result (λ note. (ms : Members) → Shows self.now ms → IsNote ms name.now note) }
    {
        note_named(self.text_at(name)?)
    }

    /// The side that the member names.
    pub fn side_at(&self, name: &[u8]) -> Option<Side>
        ensures { IfSome result (λ side. (ms : Members) → Shows self.now ms → IsSide ms name.now side) }
    {
        side_named(self.text_at(name)?)
    }

    /// The flags that the member lists.
    pub fn flags_at(&self, name: &[u8]) -> Option<EvFlags>
        ensures { IfSome result (λ flags. (ms : Members) → Shows self.now ms → AreFlags ms name.now flags.0) }
    {
        match self.piece(name)? {
            Piece::Flags(flags) => Some(flags),
            _ => None,
        }
    }

    /// The changes that the member lists, in memory of their own; none where memory is refused.
    pub fn changes_at(&self, name: &[u8]) -> Option<Vec<Change>>
        ensures { IfSome result (λ changes. (ms : Members) → Shows self.now ms
            → AreChanges ms name.now changes.items) }
    {
        match self.piece(name)? {
            Piece::Changes => {
                let alloc = *self.changes.allocator();
                match Vec::from_slice(alloc, self.changes.as_slice()) {
                    Ok(changes) => Some(changes),
                    Err(_) => None,
                }
            }
            _ => None,
        }
    }
}

/// The filter of this name.
pub fn filter_named(name: &[u8]) -> Option<Filter>
    ensures { IfSome result (λ filter. filter_named name.now ≡ Some filter) }
{
    if is(name, b"USER") {
        Some(Filter::User)
    } else if is(name, b"READ") {
        Some(Filter::Read)
    } else if is(name, b"WRITE") {
        Some(Filter::Write)
    } else if is(name, b"TIMER") {
        Some(Filter::Timer)
    } else if is(name, b"VNODE") {
        Some(Filter::Vnode)
    } else if is(name, b"PROC") {
        Some(Filter::Proc)
    } else if is(name, b"SIGNAL") {
        Some(Filter::Signal)
    } else {
        left_out_filter_named(name)
    }
}

/// The filter of this name, of those that a kqueue here refuses.
fn left_out_filter_named(name: &[u8]) -> Option<Filter>
    ensures { IfSome result (λ filter. filter_named name.now ≡ Some filter) }
{
    if is(name, b"AIO") {
        Some(Filter::Aio)
    } else if is(name, b"LIO") {
        Some(Filter::Lio)
    } else if is(name, b"FS") {
        Some(Filter::Fs)
    } else if is(name, b"PROCDESC") {
        Some(Filter::Procdesc)
    } else if is(name, b"SENDFILE") {
        Some(Filter::Sendfile)
    } else if is(name, b"EMPTY") {
        Some(Filter::Empty)
    } else {
        None
    }
}

/// The side of this name.
fn side_named(name: &[u8]) -> Option<Side>
    ensures { IfSome result (λ side. side_named name.now ≡ Some side) }
{
    if is(name, b"read") {
        Some(Side::Read)
    } else if is(name, b"write") {
        Some(Side::Write)
    } else {
        None
    }
}

/// The mode of this name.
pub fn mode_named(name: &[u8]) -> Option<Mode>
    ensures { IfSome result (λ mode. mode_named name.now ≡ Some mode) }
{
    if is(name, b"r") {
        Some(Mode::Read)
    } else if is(name, b"w") {
        Some(Mode::Write)
    } else if is(name, b"rw") {
        Some(Mode::ReadWrite)
    } else {
        None
    }
}

/// The note of this name.
pub fn note_named(name: &[u8]) -> Option<Note>
    ensures { IfSome result (λ note. note_named name.now ≡ Some note) }
{
    if is(name, b"attrib") {
        Some(Note::Attrib)
    } else if is(name, b"link") {
        Some(Note::Link)
    } else if is(name, b"rename") {
        Some(Note::Rename)
    } else if is(name, b"delete") {
        Some(Note::Delete)
    } else if is(name, b"revoke") {
        Some(Note::Revoke)
    } else {
        None
    }
}
