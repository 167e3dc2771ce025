//! Keepers of the register through time.
ghost use Rattle.std.specs.Prelude.{◌≡◌, ◌≤ℤ◌, Bool, IfOk, IfSome, OnOk, OnErr};
ghost use Rattle.land_acts.specs.Slices.{needed_slice_of, slice_of};
ghost use Rattle.land_core.specs.Numbers.{last_moment};
ghost use Rattle.land_core.specs.Register.{object_at};
ghost use Rattle.land_keep.specs.Keeping.{Closes, CanWrite, IsHonestAndOpen};
ghost use Rattle.land_keep.specs.Machine.{verdict_at, asked_moment, written_timeline};
ghost use Rattle.land_keep.specs.Named.{objects_at};
ghost use Rattle.land_keep.specs.Sheets.{view_at};
ghost use Rattle.land_keep.specs.Timeline.{Timeline, IsSoundTimeline, last_stamp, last_register, register_at};
ghost use Rattle.land_rules.specs.Rules.{seen_of};

use crate::named::NamedObject;
use crate::store_fault::StoreFault;
use crate::view::View;
use land_acts::slice::Slice;
use land_core::act::Act;
use land_core::ask::Ask;
use land_core::caller::Caller;
use land_core::change::Change;
use land_core::kind::Kind;
use land_core::object::Object;
use land_core::sequence::{NumberList, Sequence};
use land_rules::verdict::Verdict;
use std::alloc::Global;

/// A keeper of the register through time. Contracts see it as a sound timeline, whether its store is closed,
/// and whether its store is honest.
///
/// A call that fails changes nothing. Errors: 501 `NoMemory` leaves the keeper open; 502 `Store` closes it; a
/// closed keeper returns 503 `Closed`. Results are guaranteed only if the store is honest, and the timeline
/// only if it is also open.
pub trait Keeper {
    /// The timeline: all registers with their stamps.
    ghost timeline: { Self → Timeline };

    /// Whether a store operation has failed.
    ghost closed: { Self → Bool };

    /// Whether each read of the store until now returned the data last written. Results hold only if it did.
    ghost honest: { Self → Type 0 };

    /// Returns the stamp of the last accepted change; 0 in a new register.
    fn last(&self) -> i64
        ensures last { IsHonestAndOpen (honest self.now) (closed self.now)
            → result ≡ last_stamp (timeline self.now) }
        ensures moment { result ≤ℤ last_moment }
        ensures sound { IsHonestAndOpen (honest self.now) (closed self.now)
            → IsSoundTimeline (timeline self.now) };

    /// Checks if the keeper is closed.
    fn is_closed(&self) -> bool
        ensures { result ≡ closed self.now };

    /// Returns the verdict of the policy on a request at time `now`.
    fn first_denial(
        &mut self,
        alloc: Global,
        caller: Caller,
        ask: &Ask,
        now: i64,
    ) -> Result<Verdict, StoreFault>
        requires last { IsHonestAndOpen (honest self.old) (closed self.old)
            → last_stamp (timeline self.old) ≤ℤ now }
        requires asked { asked_moment ask.now now ≤ℤ now }
        ensures value { honest self.new
            → IfOk result (λ it. it ≡ verdict_at (timeline self.old) caller ask.now now) }
        ensures same { IsHonestAndOpen (honest self.new) (closed self.new)
            → timeline self.new ≡ timeline self.old }
        ensures was { honest self.new → honest self.old }
        ensures closes { Closes (closed self.old) (closed self.new) result };

    /// Returns the numbers of a kind that the caller sees at a moment, ascending.
    fn sight(
        &mut self,
        alloc: Global,
        caller: Caller,
        kind: Kind,
        at: i64,
    ) -> Result<NumberList, StoreFault>
        ensures value { honest self.new
            → IfOk result (λ it. it ≡ seen_of (register_at (timeline self.old) at) caller kind) }
        ensures same { IsHonestAndOpen (honest self.new) (closed self.new)
            → timeline self.new ≡ timeline self.old }
        ensures was { honest self.new → honest self.old }
        ensures closes { Closes (closed self.old) (closed self.new) result };

    /// Returns an object at a moment, or `None` if it does not exist then.
    fn object(
        &mut self,
        alloc: Global,
        kind: Kind,
        number: u64,
        at: i64,
    ) -> Result<Option<Object>, StoreFault>
        ensures value { honest self.new
            → IfOk result (λ it. it ≡ object_at (register_at (timeline self.old) at) kind number) }
        ensures same { IsHonestAndOpen (honest self.new) (closed self.new)
            → timeline self.new ≡ timeline self.old }
        ensures was { honest self.new → honest self.old }
        ensures closes { Closes (closed self.old) (closed self.new) result };

    /// Returns the objects of these numbers that exist at a moment, in the order of the numbers, in list
    /// form. May read all objects of the kind from the least number to the greatest.
    fn objects(
        &mut self,
        alloc: Global,
        kind: Kind,
        numbers: &[u64],
        at: i64,
    ) -> Result<Sequence<NamedObject>, StoreFault>
        ensures value { honest self.new
            → IfOk result (λ it. it ≡ objects_at (register_at (timeline self.old) at) kind numbers.now) }
        ensures same { IsHonestAndOpen (honest self.new) (closed self.new)
            → timeline self.new ≡ timeline self.old }
        ensures was { honest self.new → honest self.old }
        ensures closes { Closes (closed self.old) (closed self.new) result };

    /// Returns a unit as a caller sees it at a moment, or `None` if it does not exist then. The view has the
    /// requested moment.
    fn view(
        &mut self,
        alloc: Global,
        caller: Caller,
        unit: u64,
        at: i64,
    ) -> Result<Option<View>, StoreFault>
        ensures value { honest self.new
            → IfOk result (λ it. it ≡ view_at (register_at (timeline self.old) at) caller unit at) }
        ensures moment { IfOk result (λ it. IfSome it (λ view. view.at ≡ at)) }
        ensures same { IsHonestAndOpen (honest self.new) (closed self.new)
            → timeline self.new ≡ timeline self.old }
        ensures was { honest self.new → honest self.old }
        ensures closes { Closes (closed self.old) (closed self.new) result };

    /// Returns the slice of the last register that planning an act reads.
    fn slice(&mut self, alloc: Global, caller: Caller, act: &Act) -> Result<Slice, StoreFault>
        ensures value { honest self.new
            → IfOk result (λ it. it ≡ slice_of (last_register (timeline self.old)) caller act.now) }
        ensures same { IsHonestAndOpen (honest self.new) (closed self.new)
            → timeline self.new ≡ timeline self.old }
        ensures was { honest self.new → honest self.old }
        ensures closes { Closes (closed self.old) (closed self.new) result };

    /// Returns the part of that slice on which the outcome of the act depends.
    fn needed_slice(
        &mut self,
        alloc: Global,
        caller: Caller,
        act: &Act,
    ) -> Result<Slice, StoreFault>
        ensures value { honest self.new → IfOk result
            (λ it. it ≡ needed_slice_of (last_register (timeline self.old)) caller act.now) }
        ensures same { IsHonestAndOpen (honest self.new) (closed self.new)
            → timeline self.new ≡ timeline self.old }
        ensures was { honest self.new → honest self.old }
        ensures closes { Closes (closed self.old) (closed self.new) result };

    /// Writes a change that an act makes on the last register, with its stamp.
    fn write(&mut self, alloc: Global, change: &Change, stamp: i64) -> Result<(), StoreFault>
        requires { IsHonestAndOpen (honest self.old) (closed self.old)
            → CanWrite (timeline self.old) change.now stamp }
        ensures ok { IsHonestAndOpen (honest self.new) (closed self.new)
            → OnOk result (timeline self.new ≡ written_timeline (timeline self.old) change.now stamp) }
        ensures err { IsHonestAndOpen (honest self.new) (closed self.new)
            → OnErr result (timeline self.new ≡ timeline self.old) }
        ensures was { honest self.new → honest self.old }
        ensures closes { Closes (closed self.old) (closed self.new) result };
}
