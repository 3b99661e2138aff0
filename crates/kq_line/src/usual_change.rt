//! A change whose members stand in the order in which programs write them.

ghost use Rattle.std.specs.Prelude.{◌≡◌, ◌<◌, ◌≤◌, IfSome, Some, length};
ghost use Rattle.kq_model.specs.ChangeText.{change_with};
ghost use Rattle.kq_line.specs.Values.{IsChange};

use crate::cursor::behind;
use crate::flags::flag_names;
use crate::keys::{behind_key, behind_next_key};
use crate::lookup::filter_named;
use crate::names::quoted;
use crate::numbers::number;
use crate::usual_members::{next_i64_or_zero, next_u32_or_zero, next_u64_or_zero};
use kq_model::{Change, EvFlags, Filter};

/// The change with these parts.
#[tactic(auto, unfolding(kq_model::specs::ChangeText::change_with))]
pub fn change_with(
    ident: u64,
    filter: Filter,
    flags: EvFlags,
    fflags: u32,
    datum: i64,
    udata: u64,
) -> Change
    ensures { Some result
        ≡ change_with (Some ident) (Some filter) (Some flags.0) (Some fflags) (Some datum) (Some udata) }
{
    Change {
        ident,
        filter,
        flags,
        fflags,
        datum,
        udata,
    }
}

/// A change of which no member stands elsewhere than where programs write it, and the text behind it.
#[inline(always)]
pub fn usual_change<'a>(text: &'a [u8]) -> Option<(Change, &'a [u8])>
    ensures value { IfSome result (λ r. IsChange text.now r.0 r.1.now) }
    ensures shorter { IfSome result (λ r. length r.1.now < length text.now) }
{
    let members = behind(text, b'{')?;
    let (ident, rest) = number(behind_key(members, b"ident")?)?;
    let (name, rest) = quoted(behind_next_key(rest, b"filter")?)?;
    let filter = filter_named(name)?;
    let (flags, rest) = flag_names(behind(behind_next_key(rest, b"flags")?, b'[')?)?;
    let (fflags, rest) = next_u32_or_zero(rest, b"fflags")?;
    let (datum, rest) = next_i64_or_zero(rest, b"data")?;
    let (udata, rest) = next_u64_or_zero(rest, b"udata")?;
    let tail = behind(rest, b'}')?;
    let change = change_with(ident, filter, flags, fflags, datum, udata);
    Some((change, tail))
}
