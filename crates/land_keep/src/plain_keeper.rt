//! The plain keeper: a list of whole registers in memory.
ghost use Rattle.std.specs.Prelude.{◌≡◌, ◌∷◌, ◌++◌, [], false, ⊤, unwrap_or, IfOk, OnOk, OnErr};
ghost use Rattle.std.specs.Option.{option_copied, option_map};
ghost use Rattle.land_core.specs.Register.{empty_register};
ghost use Rattle.land_keep.specs.Timeline.{IsSoundTimeline, new_timeline, version_at, last_version};
ghost use Rattle.land_keep.specs.Timeline.{register_at, last_register};

use crate::keeper::Keeper;
use crate::laws::writing_keeps_soundness;
use crate::moments::explicit_moment;
use crate::named::{NamedObject, objects_of};
use crate::store_fault::StoreFault;
use crate::timeline::Version;
use crate::view::{View, view_of};
use land_acts::slice::{Slice, needed_slice_of, slice_of};
use land_core::act::Act;
use land_core::ask::Ask;
use land_core::caller::Caller;
use land_core::change::Change;
use land_core::kind::Kind;
use land_core::object::Object;
use land_core::register::Register;
use land_core::sequence::{NumberList, Sequence};
use land_rules::rules::{seen, verdict};
use land_rules::verdict::Verdict;
use std::alloc::{AllocError, Global};
use std::marker::Model;

/// The list of versions, each a whole register. It is never closed.
#[derive(Debug, Drop)]
pub struct PlainKeeper {
    versions: Vec<Version>,
}

impl Model for PlainKeeper {
    ghost use Rattle.std.specs.Coded.{coded_list};
    ghost use Rattle.land_keep.specs.Timeline.{Timeline, IsSoundTimeline};
    ghost use Rattle.land_keep.specs.contracts.timeline.Version as version;

    ghost Value = { Timeline };

    ghost coded = { coded_list version.the_row.coded };

    ghost view = { λ a. a.versions.items };

    ghost invariant = { λ a. IsSoundTimeline a.versions.items };
}

impl PlainKeeper {
    /// Returns a keeper of a new register.
    pub fn new(alloc: Global) -> Result<PlainKeeper, AllocError>
        ensures { IfOk result (λ it. it ≡ new_timeline) }
    {
        let mut versions = Vec::new(alloc);
        versions.push(Version {
            stamp: 0,
            register: Register::new(alloc)?,
        })?;
        Ok(PlainKeeper { versions })
    }

    fn last_version(&self) -> Option<&Version>
        ensures last { option_copied result ≡ last_version self.now }
        ensures sound { IsSoundTimeline self.now }
    {
        self.versions.last()
    }

    /// Returns the last register. A sound timeline has one; `empty` is for the case that cannot occur.
    fn last_register<'a>(&'a self, empty: &'a Register) -> &'a Register
        requires { empty.now ≡ empty_register }
        ensures register { result.now ≡ last_register self.now }
        ensures sound { IsSoundTimeline self.now }
    {
        register_of(self.last_version(), empty)
    }

    /// Returns the register at a moment; `empty` before the first stamp.
    fn register_at<'a>(&'a self, t: i64, empty: &'a Register) -> &'a Register
        requires { empty.now ≡ empty_register }
        ensures { result.now ≡ register_at self.now t }
    {
        register_of(self.version_at(t), empty)
    }

    /// Appends a version, with which the timeline stays sound. If out of memory, changes nothing.
    fn append(&mut self, version: Version) -> Result<(), AllocError>
        requires { IsSoundTimeline (self.old ++ version ∷ []) }
        ensures ok { OnOk result (self.new ≡ self.old ++ version ∷ []) }
        ensures err { OnErr result (self.new ≡ self.old) }
    {
        self.versions.push(version)?;
        Ok(())
    }

    /// Returns the last version with a stamp of at most `t`.
    fn version_at(&self, t: i64) -> Option<&Version>
        ensures { option_copied result ≡ version_at self.now t }
    {
        let mut found = None;
        for version in &self.versions {
            if version.stamp <= t {
                found = Some(version);
            }
        }
        found
    }
}

impl Keeper for PlainKeeper {
    ghost use Rattle.land_acts.specs.Slices.{needed_slice_of, slice_of};
    ghost use Rattle.land_core.specs.Register.{object_at};
    ghost use Rattle.land_keep.specs.Named.{objects_at};
    ghost use Rattle.land_keep.specs.Sheets.{view_at};
    ghost use Rattle.land_keep.specs.Timeline.{last_stamp};

    ghost timeline = { λ a. a };

    ghost closed = { λ _. false };

    ghost honest = { λ _. ⊤ };

    fn last(&self) -> i64 {
        match self.last_version() {
            Some(version) => version.stamp,
            None => 0,
        }
    }

    fn is_closed(&self) -> bool {
        false
    }

    fn first_denial(
        &mut self,
        alloc: Global,
        caller: Caller,
        ask: &Ask,
        now: i64,
    ) -> Result<Verdict, StoreFault> {
        let at = explicit_moment(ask).unwrap_or(now);
        let empty = Register::empty(alloc);
        let last = self.last_register(&empty);
        let then = self.register_at(at, &empty);
        Ok(verdict(last, then, caller, ask, at < now))
    }

    fn sight(
        &mut self,
        alloc: Global,
        caller: Caller,
        kind: Kind,
        at: i64,
    ) -> Result<NumberList, StoreFault> {
        let empty = Register::empty(alloc);
        let then = self.register_at(at, &empty);
        Ok(seen(alloc, then, caller, kind)?)
    }

    fn object(
        &mut self,
        alloc: Global,
        kind: Kind,
        number: u64,
        at: i64,
    ) -> Result<Option<Object>, StoreFault> {
        let empty = Register::empty(alloc);
        let then = self.register_at(at, &empty);
        Ok(then.object(alloc, kind, number)?)
    }

    fn objects(
        &mut self,
        alloc: Global,
        kind: Kind,
        numbers: &[u64],
        at: i64,
    ) -> Result<Sequence<NamedObject>, StoreFault> {
        let empty = Register::empty(alloc);
        let then = self.register_at(at, &empty);
        Ok(objects_of(alloc, then, kind, numbers)?)
    }

    fn view(
        &mut self,
        alloc: Global,
        caller: Caller,
        unit: u64,
        at: i64,
    ) -> Result<Option<View>, StoreFault> {
        let empty = Register::empty(alloc);
        let then = self.register_at(at, &empty);
        Ok(view_of(alloc, then, caller, unit, at)?)
    }

    fn slice(&mut self, alloc: Global, caller: Caller, act: &Act) -> Result<Slice, StoreFault> {
        let empty = Register::empty(alloc);
        let last = self.last_register(&empty);
        Ok(slice_of(alloc, last, caller, act)?)
    }

    fn needed_slice(
        &mut self,
        alloc: Global,
        caller: Caller,
        act: &Act,
    ) -> Result<Slice, StoreFault> {
        let empty = Register::empty(alloc);
        let last = self.last_register(&empty);
        Ok(needed_slice_of(alloc, last, caller, act)?)
    }

    fn write(&mut self, alloc: Global, change: &Change, stamp: i64) -> Result<(), StoreFault> {
        let empty = Register::empty(alloc);
        let last = self.last_register(&empty);
        let register = last.with_change(alloc, change)?;
        writing_keeps_soundness();
        self.append(Version { stamp, register })?;
        Ok(())
    }
}

/// Returns the register of a version, or `empty`.
fn register_of<'a>(version: Option<&'a Version>, empty: &'a Register) -> &'a Register
    ensures { result.now ≡ unwrap_or (option_map (λ v. v.register) (option_copied version.entry)) empty.now }
{
    match version {
        Some(version) => &version.register,
        None => empty,
    }
}
