//! The bit of fflags that a note of EVFILT_VNODE is.

ghost use Rattle.std.specs.Prelude.{◌≡◌};
ghost use Rattle.kq_model.specs.NoteBits as bits;

use kq_model::Note;
use kq_model::notes::{NOTE_ATTRIB, NOTE_DELETE, NOTE_LINK, NOTE_RENAME, NOTE_REVOKE};

/// A note of EVFILT_VNODE as a bit of fflags.
pub fn bit_of(note: Note) -> u32
    ensures { result ≡ bits.bit_of note }
{
    match note {
        Note::Attrib => NOTE_ATTRIB,
        Note::Link => NOTE_LINK,
        Note::Rename => NOTE_RENAME,
        Note::Delete => NOTE_DELETE,
        Note::Revoke => NOTE_REVOKE,
    }
}
