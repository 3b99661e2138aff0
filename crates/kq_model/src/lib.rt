//! What everything in kqsim means: the types of a trace and of a report, a world as kqueues see it, and
//! in `specs/` the definitions of the simulated system.
#![tactic(auto)]

mod act;
mod change;
mod doing;
mod errno;
mod event;
mod event_flags;
mod filter;
mod kevent;
mod key;
pub mod limits;
mod line_fault;
mod memory;
mod mode;
mod named;
mod note;
pub mod notes;
mod object;
mod record_kind;
mod reply;
mod row;
mod rows;
mod series;
mod side;
mod trace;
mod version;
mod views;
mod why;

pub use act::Act;
pub use change::Change;
pub use doing::{DescriptionRecord, Doing, FileRecord, PipeRecord, SocketRecord};
pub use errno::Errno;
pub use event::Event;
pub use event_flags::EvFlags;
pub use filter::Filter;
pub use kevent::Kevent;
pub use key::Key;
pub use line_fault::LineFault;
pub use memory::Memory;
pub use mode::Mode;
pub use named::{named_in, process_in, target_of};
pub use note::Note;
pub use object::{Hint, Named, Target, View};
pub use record_kind::{MemberType, RecordKind};
pub use reply::Reply;
pub use row::Row;
pub use rows::Rows;
pub use series::Series;
pub use side::Side;
pub use trace::Trace;
pub use version::Version;
pub use views::Views;
pub use why::Why;
