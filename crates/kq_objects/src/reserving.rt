//! Room for what a record makes. A plan that was made before keeps its own: no room is lost.

ghost use Rattle.std.specs.Prelude.{◌≡◌, ◌<◌, ◌≤◌, List, IfSome, OnOk};
ghost use Rattle.kq_model.specs.declared.doing.Doing.{Doing};
ghost use Rattle.kq_objects.specs.Files.{file_at};
ghost use Rattle.kq_objects.specs.Objects.{objects_of, spare_room, IsReady};

use crate::objects::Objects;
use kq_model::Memory;

impl Objects {
    /// Room for a socket at this place.
    pub(crate) fn reserve_socket(&mut self, place: u64) -> Result<(), Memory>
        ensures same { objects_of self.new ≡ objects_of self.old }
        ensures room { OnOk result (0 < (spare_room self.new).sockets) }
        ensures stays { (ds : List Doing) → IsReady ds self.old → IsReady ds self.new }
    {
        self.sockets.reserve(place)
    }

    /// Room for a pipe at this place.
    pub(crate) fn reserve_pipe(&mut self, place: u64) -> Result<(), Memory>
        ensures same { objects_of self.new ≡ objects_of self.old }
        ensures room { OnOk result (0 < (spare_room self.new).pipes) }
        ensures stays { (ds : List Doing) → IsReady ds self.old → IsReady ds self.new }
    {
        self.pipes.reserve(place)
    }

    /// Room for a file of this number.
    pub(crate) fn reserve_file(&mut self, number: u32) -> Result<(), Memory>
        ensures same { objects_of self.new ≡ objects_of self.old }
        ensures room { OnOk result (0 < (spare_room self.new).files) }
        ensures stays { (ds : List Doing) → IsReady ds self.old → IsReady ds self.new }
    {
        self.files.reserve(number)
    }

    /// Room for a description of this file, at this place.
    pub(crate) fn reserve_open(&mut self, place: u64, number: u32) -> Result<(), Memory>
        ensures same { objects_of self.new ≡ objects_of self.old }
        ensures room { OnOk result (0 < (spare_room self.new).descriptions) }
        ensures on_file { OnOk result (IfSome (file_at self.new.files number)
            (λ _. 0 < (spare_room self.new).on_file number)) }
        ensures stays { (ds : List Doing) → IsReady ds self.old → IsReady ds self.new }
    {
        self.descriptions.reserve(place)?;
        self.files.reserve_on(number)
    }
}
