//! The sides, modes and notes that a caller in C names by a number.

ghost use Rattle.std.specs.Prelude.{◌≡◌};
ghost use Rattle.kq_freebsd.specs.Numbers.{mode_of_number, note_of_number, side_of_number};

use kq_model::notes::{NOTE_ATTRIB, NOTE_DELETE, NOTE_LINK, NOTE_RENAME, NOTE_REVOKE};
use kq_model::{Mode, Note, Side};

/// The side of this number: 0 to read and 1 to write, as SHUT_RD and SHUT_WR of shutdown(2).
pub fn side_numbered(number: u32) -> Option<Side>
    ensures { result ≡ side_of_number number }
{
    match number {
        0 => Some(Side::Read),
        1 => Some(Side::Write),
        _ => None,
    }
}

/// The mode of this number: 0, 1 or 2, as O_RDONLY, O_WRONLY and O_RDWR of open(2).
pub fn mode_numbered(number: u32) -> Option<Mode>
    ensures { result ≡ mode_of_number number }
{
    match number {
        0 => Some(Mode::Read),
        1 => Some(Mode::Write),
        2 => Some(Mode::ReadWrite),
        _ => None,
    }
}

/// The note whose bit of EVFILT_VNODE's fflags this is.
pub fn note_numbered(number: u32) -> Option<Note>
    ensures { result ≡ note_of_number number }
{
    match number {
        NOTE_DELETE => Some(Note::Delete),
        NOTE_ATTRIB => Some(Note::Attrib),
        NOTE_LINK => Some(Note::Link),
        NOTE_RENAME => Some(Note::Rename),
        NOTE_REVOKE => Some(Note::Revoke),
        _ => None,
    }
}
