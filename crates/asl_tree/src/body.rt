//! Bodies of subprograms.

ghost use Rattle.std.specs.Prelude.{◌≡◌, ◌-◌, ◌^◌, IfOk, IsOk};
ghost use Rattle.asl_tree.specs.Acts.{all_acts};
ghost use Rattle.asl_tree.specs.private.Room.{FitsList, list_room};

use crate::act::Act;
use crate::slots::list_slots;
use sqlite_items::Items;
use std::alloc::AllocError;
use std::marker::Model;

/// The body of a subprogram: its statements, and how many slots of a frame the names that they declare need.
pub struct TreeBody {
    list: Items<Act>,
    slots: u32,
}

// By hand, so that a drop of one is a call, as `Held` of asl_shared says.
impl Drop for TreeBody {
    fn drop(self) {
        let TreeBody {
            list: _list,
            slots: _slots,
        } = self;
    }
}

impl Model for TreeBody {
    ghost use Rattle.asl_tree.specs.Bodies.{BodyView, body_code};
    ghost use Rattle.asl_tree.specs.Acts.{all_acts};
    ghost use Rattle.asl_tree.specs.private.Room.{FitsList};

    ghost Value = { BodyView };

    ghost coded = { body_code };

    ghost view = { λ b. record { list = b.list; slots = b.slots } };

    ghost invariant = { λ b. FitsList b.slots (all_acts b.list) };
}

impl TreeBody {
    /// A body of these statements. Where their names need more slots than a `u32` counts, the answer is want of memory: no machine
    /// has such a frame.
    #[tactic(auto, using(crate::proofs::Room::room_fits, crate::proofs::Room::wants_more))]
    pub fn new(list: Items<Act>) -> Result<TreeBody, AllocError>
        ensures same { IfOk result (λ body. body.list ≡ list) }
        ensures least { IfOk result (λ body. body.slots ≡ list_room (all_acts list)) }
        ensures fits { FitsList (2 ^ 32 - 1) (all_acts list) → IsOk result }
    {
        match list_slots(list.as_slice()) {
            Some(slots) => Ok(TreeBody { list, slots }),
            None => Err(AllocError),
        }
    }

    /// Its statements in order.
    pub fn list(&self) -> &Items<Act>
        ensures same { result.now ≡ self.now.list }
        ensures fits { FitsList self.now.slots (all_acts result.now) }
    {
        &self.list
    }

    /// How many slots of a frame the names that it declares need, beside those of its parameters and formals: the most that are
    /// bound at one time.
    pub fn slots(&self) -> u32
        ensures slots { result ≡ self.now.slots }
        ensures fits { FitsList result (all_acts self.now.list) }
    {
        self.slots
    }
}
