//! Caches what was read while a request was authorized, so that building its reply does not read it again.
ghost use Rattle.std.specs.Prelude.{◌≡◌, IfSome, None, Some, true};
ghost use Rattle.land_core.specs.Numbers.{last_moment};
ghost use Rattle.land_core.specs.Register.{object_at};
ghost use Rattle.land_keep.specs.Timeline.{Timeline, register_at};
ghost use Rattle.land_rules.specs.Denials.Standing.{mutation_of_act, mutation_of_ask};
ghost use Rattle.land_select.specs.Cache.{IsCacheOf, IsMutationValue, IsValueFor, IsValueOf};
ghost use Rattle.land_select.specs.Cache.{cached_object};

use land_core::act::Act;
use land_core::ask::Ask;
use land_core::caller::Caller;
use land_core::kind::Kind;
use land_core::limits::LAST_MOMENT;
use land_core::mutation::MutationRecord;
use land_core::object::Object;
use land_core::records::Records;
use land_core::rrr::RrrRecord;

/// A cached read.
#[derive(Debug, Drop)]
pub(crate) enum CachedValue {
    /// Nothing was cached.
    Nothing,
    /// The requested object.
    Object(Object),
    /// The entries of the requested unit that the caller sees.
    VisibleEntries(Records<RrrRecord>),
    /// The mutation that the act decides, with its number.
    Mutations(Records<MutationRecord>),
}

/// A cached read with its key. It is valid for one request: each other call of the keeper clears it.
#[derive(Debug, Drop)]
pub(crate) struct Cache {
    /// The caller.
    pub(crate) caller: Caller,
    /// The kind of the requested object.
    pub(crate) kind: Kind,
    /// The number of the requested object.
    pub(crate) number: u64,
    /// The requested time, in Unix milliseconds.
    pub(crate) moment: i64,
    /// The cached value.
    pub(crate) found: CachedValue,
}

impl Cache {
    /// Checks if this was read for an object at a time.
    fn is_for(&self, kind: Kind, number: u64, at: i64) -> bool
        ensures { result ≡ true → (self.now.kind ≡ kind) × (self.now.number ≡ number)
            × (self.now.moment ≡ at) }
    {
        self.kind == kind && self.number == number && self.moment == at
    }

    /// Checks if this was read for a caller.
    fn is_for_caller(&self, caller: Caller) -> bool
        ensures { result ≡ true → self.now.caller ≡ caller }
    {
        self.caller == caller
    }
}

/// Returns an object as a cached value.
pub(crate) fn cached_object(object: Option<Object>) -> CachedValue
    ensures { result ≡ cached_object object }
{
    match object {
        Some(it) => CachedValue::Object(it),
        None => CachedValue::Nothing,
    }
}

/// Returns a new cache for the view of an object, the sheet of a unit or the decision on a mutation; `None`
/// for lists and other acts, whose replies reuse nothing. A decision uses the mutation of the latest register.
pub(crate) fn cache_for(caller: Caller, ask: &Ask, at: i64, found: CachedValue) -> Option<Cache>
    ensures { (tl : Timeline) → IsValueFor (register_at tl at) caller ask.now found
        → IsMutationValue (register_at tl last_moment) caller (mutation_of_ask ask.now) found
        → IsCacheOf tl result }
{
    let (kind, number, moment) = match ask {
        Ask::View { kind, number, .. } => (*kind, *number, at),
        Ask::Sheet { unit, .. } => (Kind::Unit, *unit, at),
        Ask::Do(Act::Approve(it) | Act::Refuse(it)) => (Kind::Mutation, it.mutation, LAST_MOMENT),
        Ask::List { .. } | Ask::Do(_) => return None,
    };
    Some(Cache {
        caller,
        kind,
        number,
        moment,
        found,
    })
}

/// Returns the object of a kind and a number at a time, if it is cached.
pub(crate) fn take_object(cache: Option<Cache>, kind: Kind, number: u64, at: i64) -> Option<Object>
    ensures { (tl : Timeline) → IsCacheOf tl cache
        → IfSome result (λ it. object_at (register_at tl at) kind number ≡ Some it) }
{
    match cache {
        Some(it) => {
            if !it.is_for(kind, number, at) {
                return None;
            }
            let Cache { found, .. } = it;
            match found {
                CachedValue::Object(object) => Some(object),
                CachedValue::Nothing | CachedValue::VisibleEntries(_) | CachedValue::Mutations(_) =>
                    None,
            }
        }
        None => None,
    }
}

/// Returns the value that is cached for a caller, an object and a time.
pub(crate) fn take_value(
    cache: Option<Cache>,
    caller: Caller,
    kind: Kind,
    number: u64,
    at: i64,
) -> CachedValue
    ensures { (tl : Timeline) → IsCacheOf tl cache
        → IsValueOf (register_at tl at) caller kind number result }
{
    match cache {
        Some(it) => {
            if !it.is_for_caller(caller) || !it.is_for(kind, number, at) {
                return CachedValue::Nothing;
            }
            let Cache { found, .. } = it;
            found
        }
        None => CachedValue::Nothing,
    }
}

/// Returns the value that is cached for a caller and the mutation that an act decides.
pub(crate) fn take_mutation(cache: Option<Cache>, caller: Caller, act: &Act) -> CachedValue
    ensures { (tl : Timeline) → IsCacheOf tl cache
        → IsMutationValue (register_at tl last_moment) caller (mutation_of_act act.now) result }
{
    match act {
        Act::Approve(it) | Act::Refuse(it) => {
            take_value(cache, caller, Kind::Mutation, it.mutation, LAST_MOMENT)
        }
        _ => CachedValue::Nothing,
    }
}
