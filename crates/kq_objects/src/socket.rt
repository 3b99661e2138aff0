//! One socket: its buffers, marks and errors, its descriptors, and what a filter sees.

ghost use Rattle.std.specs.Prelude.{◌≡◌};
ghost use Rattle.kq_model.specs.Objects.{counted};
ghost use Rattle.kq_model.specs.Sockets.{socket_view, is_socket_held};
ghost use Rattle.kq_objects.specs.Fits.{FitsSocketAt, made_socket};

use crate::object::Object;
use kq_model::{Side, SocketRecord, View};
use std::marker::Model;

/// What is kept of one socket. Contracts see its quantities.
#[derive(Drop, Clone, Copy)]
pub struct Socket {
    pub(crate) receive_buffer: u32,
    pub(crate) send_buffer: u32,
    pub(crate) backlog: u32,
    pub(crate) pending: u32,
    pub(crate) readable: u32,
    pub(crate) unsent: u32,
    pub(crate) read_mark: u32,
    pub(crate) write_mark: u32,
    pub(crate) read_error: u32,
    pub(crate) write_error: u32,
    pub(crate) listening: bool,
    pub(crate) connected: bool,
    pub(crate) read_shut: bool,
    pub(crate) write_shut: bool,
    pub(crate) holders: u64,
}

impl Model for Socket {
    ghost use Rattle.std.specs.Prelude.{pos, unsigned_abs};
    ghost use Rattle.kq_model.specs.Sockets.{SocketState};

    ghost Value = { SocketState };

    ghost view = { λ s. record {
      receive_buffer = s.receive_buffer;
      send_buffer = s.send_buffer;
      listening = s.listening;
      backlog = s.backlog;
      pending = pos s.pending;
      connected = s.connected;
      readable = pos s.readable;
      unsent = pos s.unsent;
      read_mark = s.read_mark;
      write_mark = s.write_mark;
      read_shut = s.read_shut;
      read_error = s.read_error;
      write_shut = s.write_shut;
      write_error = s.write_error;
      holders = pos s.holders;
    } };

    ghost inverse = { λ v. record {
      receive_buffer = v.receive_buffer;
      send_buffer = v.send_buffer;
      listening = v.listening;
      backlog = v.backlog;
      pending = unsigned_abs v.pending;
      connected = v.connected;
      readable = unsigned_abs v.readable;
      unsent = unsigned_abs v.unsent;
      read_mark = v.read_mark;
      write_mark = v.write_mark;
      read_shut = v.read_shut;
      read_error = v.read_error;
      write_shut = v.write_shut;
      write_error = v.write_error;
      holders = unsigned_abs v.holders;
    } };
}

impl Object for Socket {
    type Record = SocketRecord;

    ghost book = { counted.sockets };

    ghost stays = { is_socket_held };

    ghost fits = { FitsSocketAt };

    ghost makes = { made_socket };

    #[tactic(auto, unfolding(kq_model::specs::Sockets::socket_after))]
    fn first(told: SocketRecord) -> Self {
        let SocketRecord::Made {
            receive_buffer,
            send_buffer,
        } = told
        else {
            unreachable!();
        };
        Socket {
            receive_buffer,
            send_buffer,
            listening: false,
            backlog: 0,
            pending: 0,
            connected: false,
            readable: 0,
            unsent: 0,
            read_mark: 1,
            write_mark: send_buffer.min(2048),
            read_shut: false,
            read_error: 0,
            write_shut: false,
            write_error: 0,
            holders: 1,
        }
    }

    #[tactic(auto, unfolding(kq_model::specs::Sockets::socket_after))]
    fn tell(&mut self, told: SocketRecord) {
        match told {
            SocketRecord::Made { .. } => unreachable!(),
            SocketRecord::Listened { backlog } => {
                self.listening = true;
                self.backlog = backlog;
            }
            SocketRecord::Arrived => self.pending += 1,
            SocketRecord::Accepted => self.pending -= 1,
            SocketRecord::Connected => self.connected = true,
            SocketRecord::Received { bytes } => self.readable += bytes,
            SocketRecord::Read { bytes } => self.readable -= bytes,
            SocketRecord::Written { bytes } => self.unsent += bytes,
            SocketRecord::Transmitted { bytes } => self.unsent -= bytes,
            SocketRecord::Shut { side, error } => match side {
                Side::Read => {
                    self.read_shut = true;
                    self.read_error = error;
                }
                Side::Write => {
                    self.write_shut = true;
                    self.write_error = error;
                }
            },
            SocketRecord::Marked { side, mark } => match side {
                Side::Read => self.read_mark = mark,
                Side::Write => self.write_mark = mark,
            },
            SocketRecord::Held => self.holders += 1,
            SocketRecord::Released => self.holders -= 1,
        }
    }

    fn is_held(&self) -> bool {
        self.holders > 0
    }
}

impl Socket {
    /// What a filter sees of it.
    #[tactic(auto, unfolding(kq_model::specs::Sockets::socket_view))]
    #[inline(always)]
    pub fn view(&self) -> View
        ensures { result ≡ socket_view self.now }
    {
        if self.listening {
            return View::Listen {
                pending: i64::from(self.pending),
            };
        }
        View::Sock {
            readable: i64::from(self.readable),
            read_mark: i64::from(self.read_mark),
            read_shut: self.read_shut,
            read_error: self.read_error,
            connected: self.connected,
            space: self.space(),
            write_mark: i64::from(self.write_mark),
            write_shut: self.write_shut,
            write_error: self.write_error,
        }
    }
}
