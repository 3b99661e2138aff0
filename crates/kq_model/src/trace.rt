//! A recorded run: fewer than 2^31 events, by the rules of a known version of the format.

ghost use Rattle.std.specs.Prelude.{◌<◌, ◌^◌, length};
ghost use Rattle.kq_model.specs.Limits.{IsVersion};

use crate::{Event, Series};

/// A recorded run: the version of its format and its events, of which the first has place 1.
#[derive(Drop)]
pub struct Trace {
    pub version: u32,
    pub events: Series<Event>,
    ghost version_known: { IsVersion version },
    ghost countable: { length events < 2 ^ 31 },
}
