//! All sockets, pipes, open file descriptions and files, and what filters see of them.

ghost use Rattle.std.specs.Prelude.{◌≡◌, ◌≤◌, IfOk};
ghost use Rattle.kq_model.specs.Limits.{most_file_size};
ghost use Rattle.kq_model.specs.Objects.{counted, no_objects, size_of, view_of};
ghost use Rattle.kq_objects.specs.Files.{file_at};

use crate::by_place::ByPlace;
use crate::description::Description;
use crate::files::Files;
use crate::pipe::Pipe;
use crate::socket::Socket;
use kq_model::{Memory, Target, View};
use std::alloc::Global;

/// All sockets, pipes, open file descriptions and files. A socket, a pipe and a description are
/// kept until their last descriptor is closed. Contracts see them by `objects_of`.
#[derive(Drop)]
pub struct Objects {
    pub(crate) sockets: ByPlace<Socket>,
    pub(crate) pipes: ByPlace<Pipe>,
    pub(crate) descriptions: ByPlace<Description>,
    pub(crate) files: Files,
    pub(crate) alloc: Global,
}

impl Objects {
    ghost use Rattle.kq_objects.specs.Objects.{objects_of};

    /// No objects.
    pub fn new(alloc: Global) -> Result<Self, Memory>
        ensures { IfOk result (λ o. objects_of o ≡ no_objects counted) }
    {
        Ok(Objects {
            sockets: ByPlace::new(alloc),
            pipes: ByPlace::new(alloc),
            descriptions: ByPlace::new(alloc),
            files: Files::new(alloc),
            alloc,
        })
    }

    /// What a filter sees of a target: nothing of what was not made yet, of a socket, a pipe or a
    /// description whose last descriptor was closed, and of what is not an object.
    #[tactic(auto, unfolding(kq_model::specs::Objects::view_of, kq_model::specs::Objects::description_view))]
    #[inline(always)]
    pub fn view(&self, target: Target) -> Option<View>
        ensures { result ≡ view_of target (objects_of self.now) }
    {
        match target {
            Target::Socket(place) => {
                let socket = self.sockets.get(place)?;
                Some(socket.view())
            }
            Target::Pipe(place) => {
                let pipe = self.pipes.get(place)?;
                Some(pipe.view())
            }
            Target::Open(place) => {
                let description = self.descriptions.get(place)?;
                let size = self.size_of(description.file());
                let offset = description.offset();
                Some(View::Open {
                    size: size as i64,
                    offset: offset as i64,
                })
            }
            Target::File(number) => {
                let _file = self.files.get(number)?;
                Some(View::File)
            }
            Target::Process(_) | Target::Signal { .. } | Target::Own => None,
        }
    }

    /// The size of a file in bytes, or 0 where there is none.
    pub(crate) fn size_of(&self, number: u32) -> u64
        ensures exact { result ≡ size_of (file_at self.now.files number) }
        ensures within { result ≤ most_file_size }
    {
        match self.files.get(number) {
            Some(file) => file.size(),
            None => 0,
        }
    }
}
