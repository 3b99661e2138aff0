//! A plan is carried out: what it notes is noted of the objects, and no memory is taken.

ghost use Rattle.std.specs.Prelude.{◌≡◌, List, ◌∷◌, []};
ghost use Rattle.kq_model.specs.Objects.{Objects as Kept, listed, counted, quantities, done, all_done};
ghost use Rattle.kq_model.specs.declared.doing.Doing.{Doing};
ghost use Rattle.kq_objects.specs.Objects.{objects_of, spare_room, Fits, IsReady, IsRoomFor};
ghost use Rattle.kq_objects.specs.Plans.{in_turn};

use crate::Plan;
use crate::objects::Objects;
use kq_model::Doing;

impl Objects {
    /// Carries out a plan that was made for the objects as they are. Takes no memory.
    #[inline(always)]
    pub fn commit(&mut self, plan: Plan)
        requires { IsReady plan.doings self.old }
        ensures done { objects_of self.new ≡ all_done plan.doings (objects_of self.old) }
        // The same for the lists of records that the quantities stand for.
        ensures model { (m : Kept listed) → objects_of self.old ≡ quantities m
            → objects_of self.new ≡ quantities (all_done plan.doings m) }
    {
        self.note_in_turn(plan.first, &plan.rest);
    }

    #[tactic(auto, unfolding(kq_model::specs::Objects::all_done))]
    #[inline(always)]
    fn note_in_turn(&mut self, first: Option<Doing>, rest: &[Doing])
        requires { IsReady (in_turn first rest.now) self.old }
        ensures { objects_of self.new ≡ all_done (in_turn first rest.now) (objects_of self.old) }
    {
        match first {
            Some(doing) => {
                self.note(doing);
                self.note_all(rest);
            }
            None => self.note_all(rest),
        }
    }

    fn note_all(&mut self, doings: &[Doing])
        requires { IsReady doings.now self.old }
        ensures { objects_of self.new ≡ all_done doings.now (objects_of self.old) }
    {
        for doing in doings {
            self.note(*doing);
        }
    }

    #[tactic(auto, unfolding(kq_model::specs::Objects::done))]
    pub(crate) fn note(&mut self, doing: Doing)
        requires fits { Fits doing (objects_of self.old) }
        requires room { IsRoomFor (doing ∷ []) (spare_room self.old) }
        ensures done { objects_of self.new ≡ done doing (objects_of self.old) }
        ensures room { (ds : List Doing) → IsRoomFor (doing ∷ ds) (spare_room self.old)
            → IsRoomFor ds (spare_room self.new) }
    {
        match doing {
            Doing::ToSocket { place, told } => self.sockets.tell(place, told),
            Doing::ToPipe { place, told } => self.pipes.tell(place, told),
            Doing::ToDescription { place, told } => self.descriptions.tell(place, told),
            Doing::ToFile { file, told } => self.files.tell(file, told),
        }
    }
}
