//! The bits of fflags, under kqueue(2)'s names. Their values are this project's choice.

/// READ and WRITE: data is the low-water mark.
pub const NOTE_LOWAT: u32 = 1;

/// VNODE: the file was deleted.
pub const NOTE_DELETE: u32 = 1;

/// VNODE: the file was written.
pub const NOTE_WRITE: u32 = 2;

/// VNODE: the file grew.
pub const NOTE_EXTEND: u32 = 4;

/// VNODE: the file's attributes changed.
pub const NOTE_ATTRIB: u32 = 8;

/// VNODE: the file's count of links changed.
pub const NOTE_LINK: u32 = 16;

/// VNODE: the file was renamed.
pub const NOTE_RENAME: u32 = 32;

/// VNODE: access to the file was revoked.
pub const NOTE_REVOKE: u32 = 64;

/// VNODE: the file was opened.
pub const NOTE_OPEN: u32 = 128;

/// VNODE: a description that was opened to read alone was closed.
pub const NOTE_CLOSE: u32 = 256;

/// VNODE: a description that was opened to write was closed.
pub const NOTE_CLOSE_WRITE: u32 = 512;

/// VNODE: the file was read.
pub const NOTE_READ: u32 = 1024;

/// PROC: the process exited.
pub const NOTE_EXIT: u32 = 0x8000_0000;

/// PROC: the process forked.
pub const NOTE_FORK: u32 = 0x4000_0000;

/// PROC: the process executed another program.
pub const NOTE_EXEC: u32 = 0x2000_0000;

/// PROC: follow the children. Version 1 of the trace format refuses it.
pub const NOTE_TRACK: u32 = 1;

/// PROC: the event is that of a followed child.
pub const NOTE_CHILD: u32 = 4;

/// TIMER: data is in seconds.
pub const NOTE_SECONDS: u32 = 1;

/// TIMER: data is in milliseconds, as it is where no unit is named.
pub const NOTE_MSECONDS: u32 = 2;

/// TIMER: data is in microseconds.
pub const NOTE_USECONDS: u32 = 4;

/// TIMER: data is in nanoseconds.
pub const NOTE_NSECONDS: u32 = 8;

/// TIMER: data is a moment. Version 1 of the trace format refuses it.
pub const NOTE_ABSTIME: u32 = 16;

/// USER: the event is triggered.
pub const NOTE_TRIGGER: u32 = 0x0100_0000;

/// USER: the bits stay as they are.
pub const NOTE_FFNOP: u32 = 0;

/// USER: only the given bits stay.
pub const NOTE_FFAND: u32 = 0x4000_0000;

/// USER: the given bits come in addition.
pub const NOTE_FFOR: u32 = 0x8000_0000;

/// USER: the given bits take the place of the others.
pub const NOTE_FFCOPY: u32 = 0xc000_0000;

/// USER: the bits that say what becomes of the user's own.
pub const NOTE_FFCTRLMASK: u32 = 0xc000_0000;

/// USER: the bits that are the user's own.
pub const NOTE_FFLAGSMASK: u32 = 0x00ff_ffff;
