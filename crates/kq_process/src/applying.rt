//! The step of the world by any record, each kind by a function of its own.

ghost use Rattle.std.specs.Prelude.{◌≡◌, OnOk, OnErr};
ghost use Rattle.kq_model.specs.CountedWorld.{IsCountedWorld};
ghost use Rattle.kq_model.specs.Plans.{plan};

use crate::effect::Effect;
use crate::state::State;
use crate::uses::Use;
use kq_model::{Act, Event, Memory};

impl State {
    ghost use Rattle.kq_process.specs.Effects.{IsPossible};
    ghost use Rattle.kq_process.specs.State.{state_of, IsEffectBy, IsNext};

    /// The step of the world: what the record at this place does, or the first reason why it is
    /// impossible; then it changes nothing. Nothing that is named was made at this place or later. After
    /// Memory nothing has changed.
    #[tactic(auto, unfolding(kq_model::specs::Plans::plan, kq_model::specs::Holders::made_names))]
    pub fn apply(&mut self, place: u64, event: &Event, effect: &mut Effect) -> Result<(), Memory>
        requires { IsCountedWorld place (state_of self.old) }
        ensures effect { OnOk result (IsEffectBy (plan place event.now) self.old effect.new) }
        ensures world { OnOk result (IsNext place (plan place event.now) self.old self.new) }
        ensures memory { OnErr result (state_of self.new ≡ state_of self.old) }
        // An impossible record is answered, whatever memory there is.
        ensures possible { OnErr result (IsPossible (plan place event.now (state_of self.old))) }
    {
        match event {
            Event::Proc { pid } => self.proc(*pid, effect),
            Event::Fork { pid, child } => self.fork(*pid, *child, effect),
            Event::Exit { pid, status } => self.exit(*pid, *status, effect),
            Event::Kqueue { pid, fd } => self.kqueue(place, *pid, *fd, effect),
            Event::Dup { pid, fd, to } => self.dup(*pid, *fd, *to, effect),
            Event::Close { pid, fd } => self.close(*pid, *fd, effect),
            Event::Socket { pid, fd, rcv, snd } => self.socket(
                place, *pid, *fd, *rcv, *snd, effect,
            ),
            Event::Accept {
                pid,
                fd,
                to,
                rcv,
                snd,
            } => self.accept(place, *pid, *fd, *to, *rcv, *snd, effect),
            Event::Pipe { pid, rfd, wfd, cap } => self.pipe(place, *pid, *rfd, *wfd, *cap, effect),
            Event::Listen { pid, fd, backlog } => self.use_object(
                place,
                *pid,
                *fd,
                Use::Listen { backlog: *backlog },
                effect,
            ),
            Event::Arrive { pid, fd } => self.use_object(place, *pid, *fd, Use::Arrive, effect),
            Event::Connect { pid, fd } => self.use_object(place, *pid, *fd, Use::Connect, effect),
            Event::Rx { pid, fd, n } => self.use_object(
                place,
                *pid,
                *fd,
                Use::Receive { bytes: *n },
                effect,
            ),
            Event::Tx { pid, fd, n } => self.use_object(
                place,
                *pid,
                *fd,
                Use::Transmit { bytes: *n },
                effect,
            ),
            Event::Shut {
                pid,
                fd,
                side,
                error,
            } => {
                let what = Use::Shut {
                    side: *side,
                    error: *error,
                };
                self.use_object(place, *pid, *fd, what, effect)
            }
            Event::Lowat { pid, fd, side, n } => {
                let what = Use::LowWater {
                    side: *side,
                    mark: *n,
                };
                self.use_object(place, *pid, *fd, what, effect)
            }
            Event::Read { pid, fd, n } => self.use_object(
                place,
                *pid,
                *fd,
                Use::Read { bytes: *n },
                effect,
            ),
            Event::Write { pid, fd, n } => self.use_object(
                place,
                *pid,
                *fd,
                Use::Write { bytes: *n },
                effect,
            ),
            Event::Exec { pid } => self.exec(*pid, effect),
            Event::Sigset { pid, sig, ignore } => {
                self.sigset(*pid, *sig, *ignore, effect);
                Ok(())
            }
            Event::Sig { pid, sig } => self.signal(*pid, *sig, effect),
            Event::File { file, size } => {
                let act = Act::File {
                    file: *file,
                    size: *size,
                };
                self.act(place, &act, effect)
            }
            Event::Open {
                pid,
                fd,
                file,
                mode,
            } => self.open(place, *pid, *fd, *file, *mode, effect),
            Event::Seek { pid, fd, offset } => self.use_object(
                place,
                *pid,
                *fd,
                Use::Seek { offset: *offset },
                effect,
            ),
            Event::Truncate { file, size } => {
                let act = Act::Truncate {
                    file: *file,
                    size: *size,
                };
                self.act(place, &act, effect)
            }
            Event::Note { file, note } => {
                let act = Act::Note {
                    file: *file,
                    note: *note,
                };
                self.act(place, &act, effect)
            }
            Event::Clock { ns } => {
                self.clock(*ns, effect);
                Ok(())
            }
            Event::Kevent {
                pid,
                fd,
                changes,
                room,
            } => {
                self.kevent(*pid, *fd, changes.as_slice(), *room, effect);
                Ok(())
            }
        }
    }
}
