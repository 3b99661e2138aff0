//! Records of files, for C.
ghost use Rattle.kq_freebsd.specs.Numbers.{mode_of_number, note_of_number};
ghost use Rattle.kq_model.specs.declared.event.Event.TheVariants as event_of;
ghost use Rattle.libkqsim.specs.Steps.{IsChosen, IsNumbered};

use crate::handle::Kqsim;
use crate::record::{no_argument, record};
use kq_freebsd::{mode_numbered, note_numbered};
use kq_model::Event;

/// The record `file`: a file is there, with so many bytes.
#[unsafe(no_mangle)]
pub extern "C" fn kqsim_file(sim: &mut Kqsim, file: u32, size: i64) -> i32
    ensures { IsNumbered (event_of.File file size) sim.old.state sim.new.state result }
{
    record(sim, &Event::File { file, size })
}

/// The record `open`: a process opens a file to read (0), to write (1), or for both (2).
#[unsafe(no_mangle)]
pub extern "C" fn kqsim_open(sim: &mut Kqsim, pid: u32, fd: u32, file: u32, mode: u32) -> i32
    ensures { IsChosen (mode_of_number mode)
        (λ mode. event_of.Open pid fd file mode) sim.old.state sim.new.state result }
{
    match mode_numbered(mode) {
        Some(mode) => record(
            sim,
            &Event::Open {
                pid,
                fd,
                file,
                mode,
            },
        ),
        None => no_argument(),
    }
}

/// The record `seek`: the offset of an open file is set.
#[unsafe(no_mangle)]
pub extern "C" fn kqsim_seek(sim: &mut Kqsim, pid: u32, fd: u32, offset: i64) -> i32
    ensures { IsNumbered (event_of.Seek pid fd offset) sim.old.state sim.new.state result }
{
    record(sim, &Event::Seek { pid, fd, offset })
}

/// The record `truncate`: the size of a file is set.
#[unsafe(no_mangle)]
pub extern "C" fn kqsim_truncate(sim: &mut Kqsim, file: u32, size: i64) -> i32
    ensures { IsNumbered (event_of.Truncate file size) sim.old.state sim.new.state result }
{
    record(sim, &Event::Truncate { file, size })
}

/// The record `note`: something else happens to a file, by the bit of EVFILT_VNODE's note.
#[unsafe(no_mangle)]
pub extern "C" fn kqsim_note(sim: &mut Kqsim, file: u32, note: u32) -> i32
    ensures { IsChosen (note_of_number note) (λ note. event_of.Note file note) sim.old.state sim.new.state result }
{
    match note_numbered(note) {
        Some(note) => record(sim, &Event::Note { file, note }),
        None => no_argument(),
    }
}
