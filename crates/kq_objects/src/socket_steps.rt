//! What a record comes to at one socket: the first reason against it, or what is noted.

ghost use Rattle.std.specs.Prelude.{◌≡◌, ◌^◌, pos, ◌+ℤ◌, ◌<ℤ◌, IfOk};
ghost use Rattle.kq_model.specs.Sockets.{is_unconnected, socket_space};
ghost use Rattle.kq_model.specs.SocketSteps.{is_capacity, hint_on, capacity_of, listen, arrive, accept, connect};
ghost use Rattle.kq_model.specs.SocketSteps.{receive, transmit, shut, low_water, read_socket, write_socket};
ghost use Rattle.kq_objects.specs.Fits.{IsNoteOn};

use crate::socket::Socket;
use kq_model::{Hint, Side, SocketRecord, Why};

/// What is noted of a socket, with the hint for its knotes, or why the record is impossible.
pub type SocketStep = Result<(SocketRecord, Option<Hint>), Why>;

/// The greatest size of a buffer or a pipe, in bytes, and the greatest backlog.
const MOST_CAPACITY: u32 = 0x7fff_ffff;

/// Whether a buffer, a pipe or a backlog may have this size.
#[tactic(auto, unfolding(kq_model::specs::SocketSteps::is_capacity))]
pub fn is_capacity(size: u32) -> bool
    ensures { result ≡ is_capacity size }
{
    0 < size && size <= MOST_CAPACITY
}

#[tactic(auto, unfolding(kq_model::specs::SocketSteps::hint_on))]
fn hint_on(side: Side) -> Hint
    ensures { result ≡ hint_on side }
{
    match side {
        Side::Read => Hint::Readable,
        Side::Write => Hint::Writable,
    }
}

impl Socket {
    /// Neither listening nor connected.
    fn is_unconnected(&self) -> bool
        ensures { result ≡ is_unconnected self.now }
    {
        !self.listening && !self.connected
    }

    /// How many more bytes fit into the send buffer.
    #[inline(always)]
    pub fn space(&self) -> i64
        ensures exact { result ≡ socket_space self.now }
        ensures small { (result +ℤ self.now.unsent) <ℤ pos (2 ^ 32) }
    {
        i64::from(self.send_buffer) - i64::from(self.unsent)
    }

    #[tactic(auto, unfolding(kq_model::specs::SocketSteps::capacity_of))]
    fn capacity(&self, side: Side) -> u32
        ensures { result ≡ capacity_of side self.now }
    {
        match side {
            Side::Read => self.receive_buffer,
            Side::Write => self.send_buffer,
        }
    }

    #[tactic(auto, unfolding(kq_model::specs::SocketSteps::listen))]
    pub fn listen(&self, backlog: u32) -> SocketStep
        ensures exact { result ≡ listen backlog self.now }
        ensures fits { IfOk result (λ step. IsNoteOn step.0 self.now) }
    {
        if !self.is_unconnected() {
            return Err(Why::WrongKind);
        }
        if !is_capacity(backlog) {
            return Err(Why::TooMany);
        }
        Ok((SocketRecord::Listened { backlog }, None))
    }

    #[tactic(auto, unfolding(kq_model::specs::SocketSteps::arrive))]
    pub fn arrive(&self) -> SocketStep
        ensures exact { result ≡ arrive self.now }
        ensures fits { IfOk result (λ step. IsNoteOn step.0 self.now) }
    {
        if !self.listening {
            return Err(Why::WrongKind);
        }
        if self.backlog <= self.pending {
            return Err(Why::TooMany);
        }
        Ok((SocketRecord::Arrived, Some(Hint::Readable)))
    }

    /// At the socket that listens; the sizes are those of the new one.
    #[tactic(auto, unfolding(kq_model::specs::SocketSteps::accept))]
    pub fn accept(&self, receive_buffer: u32, send_buffer: u32) -> SocketStep
        ensures exact { result ≡ accept receive_buffer send_buffer self.now }
        ensures fits { IfOk result (λ step. IsNoteOn step.0 self.now) }
    {
        if !self.listening {
            return Err(Why::WrongKind);
        }
        if self.pending == 0 {
            return Err(Why::Absent);
        }
        if !(is_capacity(receive_buffer) && is_capacity(send_buffer)) {
            return Err(Why::TooMany);
        }
        Ok((SocketRecord::Accepted, None))
    }

    #[tactic(auto, unfolding(kq_model::specs::SocketSteps::connect))]
    pub fn connect(&self) -> SocketStep
        ensures exact { result ≡ connect self.now }
        ensures fits { IfOk result (λ step. IsNoteOn step.0 self.now) }
    {
        if !self.is_unconnected() {
            return Err(Why::WrongKind);
        }
        Ok((SocketRecord::Connected, Some(Hint::Writable)))
    }

    #[tactic(auto, unfolding(kq_model::specs::SocketSteps::receive))]
    pub fn receive(&self, bytes: u32) -> SocketStep
        ensures exact { result ≡ receive bytes self.now }
        ensures fits { IfOk result (λ step. IsNoteOn step.0 self.now) }
    {
        if !self.connected || self.read_shut {
            return Err(Why::WrongKind);
        }
        if i64::from(self.receive_buffer) < i64::from(self.readable) + i64::from(bytes) {
            return Err(Why::TooMany);
        }
        Ok((SocketRecord::Received { bytes }, Some(Hint::Readable)))
    }

    #[tactic(auto, unfolding(kq_model::specs::SocketSteps::transmit))]
    pub fn transmit(&self, bytes: u32) -> SocketStep
        ensures exact { result ≡ transmit bytes self.now }
        ensures fits { IfOk result (λ step. IsNoteOn step.0 self.now) }
    {
        if !self.connected {
            return Err(Why::WrongKind);
        }
        if self.unsent < bytes {
            return Err(Why::TooMany);
        }
        Ok((SocketRecord::Transmitted { bytes }, Some(Hint::Writable)))
    }

    #[tactic(auto, unfolding(kq_model::specs::SocketSteps::shut))]
    pub fn shut(&self, side: Side, error: u32) -> SocketStep
        ensures exact { result ≡ shut side error self.now }
        ensures fits { IfOk result (λ step. IsNoteOn step.0 self.now) }
    {
        if self.listening {
            return Err(Why::WrongKind);
        }
        Ok((SocketRecord::Shut { side, error }, Some(hint_on(side))))
    }

    #[tactic(auto, unfolding(kq_model::specs::SocketSteps::low_water))]
    pub fn low_water(&self, side: Side, mark: u32) -> SocketStep
        ensures exact { result ≡ low_water side mark self.now }
        ensures fits { IfOk result (λ step. IsNoteOn step.0 self.now) }
    {
        if self.listening {
            return Err(Why::WrongKind);
        }
        if !(0 < mark && mark <= self.capacity(side)) {
            return Err(Why::TooMany);
        }
        Ok((SocketRecord::Marked { side, mark }, Some(hint_on(side))))
    }

    #[tactic(auto, unfolding(kq_model::specs::SocketSteps::read_socket))]
    pub fn read(&self, bytes: u32) -> SocketStep
        ensures exact { result ≡ read_socket bytes self.now }
        ensures fits { IfOk result (λ step. IsNoteOn step.0 self.now) }
    {
        if self.listening {
            return Err(Why::WrongKind);
        }
        if self.readable < bytes {
            return Err(Why::TooMany);
        }
        Ok((SocketRecord::Read { bytes }, None))
    }

    #[tactic(auto, unfolding(kq_model::specs::SocketSteps::write_socket))]
    pub fn write(&self, bytes: u32) -> SocketStep
        ensures exact { result ≡ write_socket bytes self.now }
        ensures fits { IfOk result (λ step. IsNoteOn step.0 self.now) }
    {
        if !self.connected || self.write_shut {
            return Err(Why::WrongKind);
        }
        if self.space() < i64::from(bytes) {
            return Err(Why::TooMany);
        }
        Ok((SocketRecord::Written { bytes }, None))
    }
}
