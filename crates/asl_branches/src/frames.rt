//! The frames of a run over their store. The names of a frame take its slots in order, and give them back in the opposite order:
//! so what is bound is a list, and behind it is the room that is left.
ghost use Rattle.std.specs.Prelude.{◌≡◌, ◌∷◌, ◌++◌, ◌<◌, ◌≤◌, [], OnOk, length, set, slice_get, take};
ghost use Rattle.std.specs.Option.{option_copied};
ghost use Rattle.asl_bits.specs.declared.TheConstants.{WIDTH_LIMIT};
ghost use Rattle.asl_rules.specs.private.ByPlace.{updated};
ghost use Rattle.asl_value.specs.private.Forms.{all_steps};
ghost use Rattle.asl_value.specs.View.{value_of};
ghost use Rattle.asl_branches.specs.Framed.{Changed};
ghost use Rattle.asl_branches.specs.private.Packing.{IsFrame, bound_in};

use asl_store::Store;
use asl_value::{Failure, Step, Value};
use std::alloc::{AllocError, Global};
use std::marker::Model;

/// What a caller's frame has beside its slots: how many are bound, and the exceptions that are being handled in it, the innermost
/// last.
#[derive(Drop)]
pub struct Caller {
    height: usize,
    handled: Vec<Value>,
}

/// The globals, the present frame, and the frames of the callers.
#[derive(Drop)]
pub struct Frames {
    store: Store,
    /// How many slots of the present frame are bound.
    height: usize,
    /// Of the callers, the innermost last.
    callers: Vec<Caller>,
}

impl Model for Frames {
    ghost use Rattle.asl_branches.specs.Framed.{Framed, framed_code};

    ghost Value = { Framed };

    ghost coded = { framed_code };

    ghost use Rattle.std.specs.Prelude.{length};
    ghost use Rattle.asl_branches.specs.private.Packing.{AreFilled, IsFrame, bound_in, kept_in};

    ghost view = { λ f. record { globals = f.store.globals; values = bound_in f.store.newest; slots = length f.store.newest; callers = kept_in f.store.older f.callers.items } };

    ghost invariant = { λ f. IsFrame f.height f.store.newest × AreFilled f.store.older f.callers.items };
}

impl Frames {
    /// These globals, and a frame without slots.
    pub fn new(alloc: Global, globals: Vec<Value>) -> Frames
        ensures { result ≡ record { globals = globals.items; values = []; slots = 0; callers = [] } }
    {
        Frames {
            store: Store::new(alloc, globals),
            height: 0,
            callers: Vec::new(alloc),
        }
    }

    // ---- reading

    /// The value in a place of the frame, none where that isn't bound.
    pub fn value(&self, at: usize) -> Option<&Value>
        ensures { option_copied result ≡ slice_get self.now.values at }
    {
        if at < self.height {
            Some(self.store.get(at as u32))
        } else {
            None
        }
    }

    /// The value of a global, none where there is no such global.
    pub fn global(&self, at: usize) -> Option<&Value>
        ensures { option_copied result ≡ slice_get self.now.globals at }
    {
        self.store.global(at)
    }

    /// How many values the frame has.
    pub fn height(&self) -> usize
        ensures { result ≡ length self.now.values }
    {
        self.height
    }

    /// How many globals there are.
    pub fn globals(&self) -> usize
        ensures { result ≡ length self.now.globals }
    {
        self.store.globals()
    }

    // ---- scopes

    /// The next place of the frame takes a value. There is a free one.
    pub fn push(&mut self, value: Value)
        requires { length self.old.values < self.old.slots }
        ensures { self.new ≡ record self.old { values = self.old.values ++ value ∷ [] } }
    {
        self.store.bind(self.height as u32, value);
        self.height += 1;
    }

    /// The places from this one on are free again.
    pub fn truncate(&mut self, height: usize)
        ensures { self.new ≡ record self.old { values = take height self.old.values } }
    {
        if height < self.height {
            unbind_from(&mut self.store, height, self.height);
            self.height = height;
        }
    }

    // ---- storing

    /// A place takes another value.
    pub fn set(&mut self, at: usize, value: Value)
        requires { at < length self.old.values }
        ensures { self.new ≡ record self.old { values = set self.old.values at value } }
    {
        self.store.set(at as u32, value);
    }

    /// A global takes another value.
    pub fn set_global(&mut self, at: usize, value: Value)
        requires { at < length self.old.globals }
        ensures { self.new ≡ record self.old { globals = set self.old.globals at value } }
    {
        self.store.set_global(at, value);
    }

    /// Replaces a part of the value in a place, in place where each part on the way has one owner. At a fault the place holds what
    /// it held.
    pub fn replace(
        &mut self,
        alloc: Global,
        at: usize,
        steps: &[Step],
        holds_bits: bool,
        value: Value,
    ) -> Result<(), Failure>
        requires { at < length self.old.values }
        ensures changed { Changed result (updated WIDTH_LIMIT holds_bits (all_steps steps.now) (value_of value)) at self.old.values self.new.values }
        ensures same { self.new ≡ record self.old { values = self.new.values } }
    {
        self.store
            .replace_in(alloc, at as u32, steps, holds_bits, value)
    }

    /// The same in a global.
    pub fn replace_global(
        &mut self,
        alloc: Global,
        at: usize,
        steps: &[Step],
        holds_bits: bool,
        value: Value,
    ) -> Result<(), Failure>
        requires { at < length self.old.globals }
        ensures changed { Changed result (updated WIDTH_LIMIT holds_bits (all_steps steps.now) (value_of value)) at self.old.globals self.new.globals }
        ensures same { self.new ≡ record self.old { globals = self.new.globals } }
    {
        self.store
            .replace_global(alloc, at, steps, holds_bits, value)
    }

    // ---- calls

    /// Enters a frame with so many slots; the present one is its caller's, in which these exceptions are being handled.
    pub fn enter(&mut self, slots: u32, handled: Vec<Value>) -> Result<(), AllocError>
        ensures { OnOk result (self.new ≡ record { globals = self.old.globals; values = []; slots = slots; callers = self.old.callers ++ record { values = self.old.values; slots = self.old.slots; handled = handled.items } ∷ [] }) }
    {
        let caller = Caller {
            height: self.height,
            handled,
        };
        self.callers.reserve(1)?;
        self.store.push_frame(slots)?;
        self.callers.push(caller).unwrap();
        self.height = 0;
        Ok(())
    }

    /// Leaves the present frame for its caller's, and gives the exceptions that are being handled there.
    pub fn leave(&mut self) -> Vec<Value>
        requires { 0 < length self.old.callers }
        ensures frames { self.old.callers ≡ self.new.callers ++ record { values = self.new.values; slots = self.new.slots; handled = result.items } ∷ [] }
        ensures globals { self.new.globals ≡ self.old.globals }
    {
        let caller = self.callers.pop().unwrap();
        self.store.pop_frame();
        self.height = caller.height;
        caller.handled
    }

    /// Gives the globals, in order, for others.
    pub fn swap_globals(&mut self, globals: &mut Vec<Value>)
        ensures given { globals.new.items ≡ self.old.globals }
        ensures taken { self.new ≡ record self.old { globals = globals.old.items } }
    {
        self.store.swap_globals(globals);
    }
}

/// Binds the slots from this one on to none, of which those up to the end are bound.
fn unbind_from(store: &mut Store, height: usize, end: usize)
    requires filled { IsFrame end store.old.newest }
    requires ordered { height ≤ end }
    ensures filled { IsFrame height store.new.newest }
    ensures values { bound_in store.new.newest ≡ take height (bound_in store.old.newest) }
    ensures slots { length store.new.newest ≡ length store.old.newest }
    ensures globals { store.new.globals ≡ store.old.globals }
    ensures older { store.new.older ≡ store.old.older }
{
    let mut at = end;
    while at > height {
        at -= 1;
        store.unbind(at as u32);
    }
}
