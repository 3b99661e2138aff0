//! One record of a trace, as a value: each kind of record with its members.

ghost use Rattle.std.specs.Prelude.{◌≡◌, IfOk};

use crate::{Change, Memory, Mode, Note, Series, Side};

/// One record of a trace: what happened to the simulated system. Its fields have the names of the record's members.
///
/// `pid` is the process that acts, and `fd` a descriptor of it that is open, unless it is said to be new. Sizes,
/// marks and amounts are bytes. Every value is an event; whether it is possible depends on what came before.
#[derive(Drop)]
pub enum Event {
    /// A process starts, with no descriptors. Its pid was never used before (this project's choice).
    Proc {
        pid: u32,
    },
    /// The process makes a child, which has copies of its descriptors but for its kqueues; see fork(2) and kqueue(2).
    Fork {
        pid: u32,
        child: u32,
    },
    /// The process ends with this status, and all its descriptors are closed in rising order; see exit(3).
    Exit {
        pid: u32,
        status: u32,
    },
    /// The process opens a kqueue under a number that is not open.
    Kqueue {
        pid: u32,
        fd: u32,
    },
    /// `to` names what `fd` names, and is closed before where it was open; see dup2(2). `fd` is no kqueue.
    Dup {
        pid: u32,
        fd: u32,
        to: u32,
    },
    /// The process closes a descriptor; see close(2).
    Close {
        pid: u32,
        fd: u32,
    },
    /// The process makes a socket under the new number `fd`, with buffers of these sizes, each at least 1 and at most
    /// 2^31 - 1; see socket(2), and SO_RCVBUF and SO_SNDBUF of setsockopt(2).
    Socket {
        pid: u32,
        fd: u32,
        rcv: u32,
        snd: u32,
    },
    /// The socket takes connections, and at most `backlog` of them wait to be accepted; see listen(2).
    Listen {
        pid: u32,
        fd: u32,
        backlog: u32,
    },
    /// A connection arrives at the listening socket and waits.
    Arrive {
        pid: u32,
        fd: u32,
    },
    /// A connection that waits at the socket `fd` becomes a socket of its own under the new number `to`, with buffers
    /// of these sizes; see accept(2).
    Accept {
        pid: u32,
        fd: u32,
        to: u32,
        rcv: u32,
        snd: u32,
    },
    /// The socket is connected; see connect(2).
    Connect {
        pid: u32,
        fd: u32,
    },
    /// `n` bytes come from the peer of the connected socket.
    Rx {
        pid: u32,
        fd: u32,
        n: u32,
    },
    /// `n` bytes of the socket's send buffer go to its peer.
    Tx {
        pid: u32,
        fd: u32,
        n: u32,
    },
    /// A side of the socket is shut, with this error number or 0; see shutdown(2), and EV_EOF of kqueue(2).
    Shut {
        pid: u32,
        fd: u32,
        side: Side,
        error: u32,
    },
    /// The low-water mark of a side of the socket is `n`; see SO_RCVLOWAT and SO_SNDLOWAT of setsockopt(2).
    Lowat {
        pid: u32,
        fd: u32,
        side: Side,
        n: u32,
    },
    /// The process makes a pipe that holds `cap` bytes, with the new numbers `rfd` for its read end and `wfd` for its
    /// write end; see pipe(2).
    Pipe {
        pid: u32,
        rfd: u32,
        wfd: u32,
        cap: u32,
    },
    /// The process reads `n` bytes; see read(2).
    Read {
        pid: u32,
        fd: u32,
        n: u32,
    },
    /// The process writes `n` bytes; see write(2).
    Write {
        pid: u32,
        fd: u32,
        n: u32,
    },
    /// The process runs another program; see execve(2).
    Exec {
        pid: u32,
    },
    /// The process ignores the signal `sig` from now on, or no longer; see sigaction(2). Signals are 1 to 128.
    Sigset {
        pid: u32,
        sig: u32,
        ignore: bool,
    },
    /// The signal `sig`, 1 to 128, is sent to the process; see kill(2).
    Sig {
        pid: u32,
        sig: u32,
    },
    /// A file of this number is there from now on, with so many bytes, 0 to 2^61. Its number was never used before
    /// (this project's choice).
    File {
        file: u32,
        size: i64,
    },
    /// The process opens the file under the new number `fd`, at offset 0; see open(2).
    Open {
        pid: u32,
        fd: u32,
        file: u32,
        mode: Mode,
    },
    /// The offset of the open file description is `offset` bytes, 0 to 2^61; see lseek(2).
    Seek {
        pid: u32,
        fd: u32,
        offset: i64,
    },
    /// The file has `size` bytes, 0 to 2^61; see truncate(2).
    Truncate {
        file: u32,
        size: i64,
    },
    /// Something else happens to the file; see EVFILT_VNODE of kqueue(2).
    Note {
        file: u32,
        note: Note,
    },
    /// The clock goes on to `ns` ns after its start, or stays there; 0 to 2^63 - 1.
    Clock {
        ns: i64,
    },
    /// The process calls kevent(2) on its kqueue: first all changes, then at most `room` events.
    Kevent {
        pid: u32,
        fd: u32,
        changes: Series<Change>,
        room: u32,
    },
}

impl Event {
    /// An equal event.
    pub fn copy(&self) -> Result<Self, Memory>
        ensures { IfOk result (λ copied. copied ≡ self.now) }
    {
        match *self {
            Event::Proc { pid } => Ok(Event::Proc { pid }),
            Event::Fork { pid, child } => Ok(Event::Fork { pid, child }),
            Event::Exit { pid, status } => Ok(Event::Exit { pid, status }),
            Event::Kqueue { pid, fd } => Ok(Event::Kqueue { pid, fd }),
            Event::Dup { pid, fd, to } => Ok(Event::Dup { pid, fd, to }),
            Event::Close { pid, fd } => Ok(Event::Close { pid, fd }),
            Event::Socket { pid, fd, rcv, snd } => Ok(Event::Socket { pid, fd, rcv, snd }),
            Event::Listen { pid, fd, backlog } => Ok(Event::Listen { pid, fd, backlog }),
            Event::Arrive { pid, fd } => Ok(Event::Arrive { pid, fd }),
            Event::Accept {
                pid,
                fd,
                to,
                rcv,
                snd,
            } => Ok(Event::Accept {
                pid,
                fd,
                to,
                rcv,
                snd,
            }),
            Event::Connect { pid, fd } => Ok(Event::Connect { pid, fd }),
            Event::Rx { pid, fd, n } => Ok(Event::Rx { pid, fd, n }),
            Event::Tx { pid, fd, n } => Ok(Event::Tx { pid, fd, n }),
            Event::Shut {
                pid,
                fd,
                side,
                error,
            } => Ok(Event::Shut {
                pid,
                fd,
                side,
                error,
            }),
            Event::Lowat { pid, fd, side, n } => Ok(Event::Lowat { pid, fd, side, n }),
            Event::Pipe { pid, rfd, wfd, cap } => Ok(Event::Pipe { pid, rfd, wfd, cap }),
            Event::Read { pid, fd, n } => Ok(Event::Read { pid, fd, n }),
            Event::Write { pid, fd, n } => Ok(Event::Write { pid, fd, n }),
            Event::Exec { pid } => Ok(Event::Exec { pid }),
            Event::Sigset { pid, sig, ignore } => Ok(Event::Sigset { pid, sig, ignore }),
            Event::Sig { pid, sig } => Ok(Event::Sig { pid, sig }),
            Event::File { file, size } => Ok(Event::File { file, size }),
            Event::Open {
                pid,
                fd,
                file,
                mode,
            } => Ok(Event::Open {
                pid,
                fd,
                file,
                mode,
            }),
            Event::Seek { pid, fd, offset } => Ok(Event::Seek { pid, fd, offset }),
            Event::Truncate { file, size } => Ok(Event::Truncate { file, size }),
            Event::Note { file, note } => Ok(Event::Note { file, note }),
            Event::Clock { ns } => Ok(Event::Clock { ns }),
            Event::Kevent {
                pid,
                fd,
                ref changes,
                room,
            } => Ok(Event::Kevent {
                pid,
                fd,
                changes: changes.copy()?,
                room,
            }),
        }
    }
}
