//! Text that is put together piece by piece, straight into bytes, and bytes that are written out: what a trace and a
//! report have in common.
#![tactic(auto)]

mod flags;
mod output;
mod over;
mod pieces;
mod room;

pub use flags::{FLAGS_BYTES, push_flags, put_flags, write_flags_at};
pub use output::{WriteFailed, write_out};
pub use over::{NUMBER_BYTES, write_at, write_first_at, write_number_at, write_signed_at};
pub use pieces::{put, put_i64, put_number, put_u32, put_u64};
pub use room::{push, push_number};
