//! An object gains or loses a descriptor, and ends with its last one.

ghost use Rattle.std.specs.Prelude.{◌≡◌, ℕ, pos, ◌≤ℤ◌, None};
ghost use Rattle.kq_model.specs.Holding.{release, release_hint, end_hint, close_hint, leaving};
ghost use Rattle.kq_model.specs.Holders.{hold, socket_holders};
ghost use Rattle.kq_model.specs.Holding.{readers, writers};
ghost use Rattle.kq_model.specs.Holders.{description_holders};
ghost use Rattle.kq_model.specs.Objects.{all_done};
ghost use Rattle.kq_model.specs.declared.object.Hint.TheVariants as hint;
ghost use Rattle.kq_model.specs.declared.object.Named.TheVariants as named;
ghost use Rattle.kq_objects.specs.ByPlace.{object_at};
ghost use Rattle.kq_objects.specs.Files.{file_at};
ghost use Rattle.kq_objects.specs.Holding.{CanHold, CanRelease};
ghost use Rattle.kq_objects.specs.Objects.{objects_of};

use crate::objects::Objects;
use kq_model::notes::{NOTE_CLOSE, NOTE_CLOSE_WRITE};
use kq_model::{
    DescriptionRecord, Doing, FileRecord, Hint, Named, PipeRecord, Side, SocketRecord, Target,
};

impl Objects {
    /// One more descriptor names the object, as after dup(2) and fork(2). Takes no memory.
    #[tactic(auto, unfolding(crate::proofs::Unfolded::holding))]
    pub fn hold(&mut self, named: Named)
        requires { CanHold named (objects_of self.old) }
        ensures { objects_of self.new ≡ hold named (objects_of self.old) }
    {
        match named {
            Named::Socket(place) => self.note(Doing::ToSocket {
                place,
                told: SocketRecord::Held,
            }),
            Named::PipeRead(place) => self.note(Doing::ToPipe {
                place,
                told: PipeRecord::Held { end: Side::Read },
            }),
            Named::PipeWrite(place) => self.note(Doing::ToPipe {
                place,
                told: PipeRecord::Held { end: Side::Write },
            }),
            Named::Open {
                description: place,
                ..
            } => self.note(Doing::ToDescription {
                place,
                told: DescriptionRecord::Held,
            }),
            Named::Kqueue(_) => {}
        }
    }

    /// One descriptor no longer names the object, as after close(2). The last one ends the object,
    /// or its end of a pipe, and the hint says so to the knotes that are left. Takes no memory.
    #[tactic(auto, unfolding(crate::proofs::Unfolded::releasing_named))]
    pub fn release(&mut self, named: Named) -> Option<(Target, Hint)>
        requires { CanRelease named (objects_of self.old) }
        ensures done { objects_of self.new ≡ release named (objects_of self.old) }
        ensures hint { result ≡ release_hint named (objects_of self.old) }
    {
        match named {
            Named::Socket(place) => self.release_socket(place),
            Named::PipeRead(place) => self.release_reader(place),
            Named::PipeWrite(place) => self.release_writer(place),
            Named::Open { description, .. } => self.release_description(description),
            Named::Kqueue(_) => None,
        }
    }

    #[tactic(auto, unfolding(crate::proofs::Unfolded::releasing))]
    fn release_socket(&mut self, place: u64) -> Option<(Target, Hint)>
        requires { pos 1 ≤ℤ socket_holders (object_at self.old.sockets place) }
        ensures done { objects_of self.new ≡ release (named.Socket place) (objects_of self.old) }
        ensures hint { result ≡ None }
    {
        self.note(Doing::ToSocket {
            place,
            told: SocketRecord::Released,
        });
        None
    }

    #[tactic(auto, unfolding(crate::proofs::Unfolded::releasing_end))]
    fn release_reader(&mut self, place: u64) -> Option<(Target, Hint)>
        requires { pos 1 ≤ℤ readers (object_at self.old.pipes place) }
        ensures done { objects_of self.new ≡ release (named.PipeRead place) (objects_of self.old) }
        ensures hint { result ≡ end_hint place hint.Writable (readers (object_at self.old.pipes place)) }
    {
        let pipe = *self.pipes.get(place)?;
        self.note(Doing::ToPipe {
            place,
            told: PipeRecord::Released { end: Side::Read },
        });
        if pipe.is_last_reader() {
            Some((Target::Pipe(place), Hint::Writable))
        } else {
            None
        }
    }

    #[tactic(auto, unfolding(crate::proofs::Unfolded::releasing_end))]
    fn release_writer(&mut self, place: u64) -> Option<(Target, Hint)>
        requires { pos 1 ≤ℤ writers (object_at self.old.pipes place) }
        ensures done { objects_of self.new ≡ release (named.PipeWrite place) (objects_of self.old) }
        ensures hint { result ≡ end_hint place hint.Readable (writers (object_at self.old.pipes place)) }
    {
        let pipe = *self.pipes.get(place)?;
        self.note(Doing::ToPipe {
            place,
            told: PipeRecord::Released { end: Side::Write },
        });
        if pipe.is_last_writer() {
            Some((Target::Pipe(place), Hint::Readable))
        } else {
            None
        }
    }

    #[tactic(auto, unfolding(crate::proofs::Unfolded::releasing_description))]
    fn release_description(&mut self, place: u64) -> Option<(Target, Hint)>
        requires { pos 1 ≤ℤ description_holders (object_at self.old.descriptions place) }
        ensures done { (number : ℕ) → objects_of self.new
            ≡ release (named.Open place number) (objects_of self.old) }
        ensures hint { result ≡ close_hint (object_at self.old.descriptions place) }
    {
        let description = *self.descriptions.get(place)?;
        self.note(Doing::ToDescription {
            place,
            told: DescriptionRecord::Released,
        });
        if !description.is_last() {
            return None;
        }
        let number = description.file();
        self.leave(place, number);
        let bits = if description.may_write() {
            NOTE_CLOSE_WRITE
        } else {
            NOTE_CLOSE
        };
        Some((Target::File(number), Hint::Note(bits)))
    }

    /// A file no longer has the description of a place.
    #[tactic(auto, unfolding(kq_model::specs::Holding::leaving, kq_model::specs::Objects::all_done))]
    fn leave(&mut self, place: u64, number: u32)
        ensures { objects_of self.new
            ≡ all_done (leaving place number (file_at self.old.files number)) (objects_of self.old) }
    {
        if self.files.get(number).is_some() {
            self.note(Doing::ToFile {
                file: number,
                told: FileRecord::Left { description: place },
            });
        }
    }
}
