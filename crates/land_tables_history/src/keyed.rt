//! Values with a key. At most one version of a key is current at a moment.
ghost use Rattle.std.specs.Prelude.{◌≡◌, ℕ, Bool};
ghost use Rattle.land_core.specs.Role.{role_index};
ghost use Rattle.land_tables_history.specs.Intervals.{is_same_grant, is_same_mandate, is_same_member};
ghost use Rattle.land_tables_history.specs.Intervals.{is_same_naming, is_same_number};
ghost use Rattle.land_tables_history.specs.Pairs.{grants_by_pairs, is_same_pair, mandates_by_pairs};
ghost use Rattle.land_tables_history.specs.Pairs.{members_by_pairs, namings_by_pairs, numbers_by_pairs};

use crate::group_member::GroupMember;
use crate::naming::Naming;
use land_core::mandates::Mandate;
use land_core::roles::Grant;

/// A value with a key.
pub trait Keyed {
    /// Whether two values have the same key.
    ghost same_key: { Self → Self → Bool };

    /// The key as two numbers.
    ghost key_of: { Self → ℕ × ℕ };

    /// Returns the key.
    fn key(&self) -> (u64, u64)
        ensures { result ≡ key_of self.now };

    /// Two values have the same key if and only if the numbers are equal.
    ghost by_pairs: { (a b : Self) → same_key a b ≡ is_same_pair (key_of a) (key_of b) };
}

impl<V> Keyed for (u64, V) {
    ghost same_key = { is_same_number };

    ghost key_of = { λ a. (a.0, 0) };

    ghost by_pairs = { numbers_by_pairs };

    fn key(&self) -> (u64, u64) {
        (self.0, 0)
    }
}

impl Keyed for Grant {
    ghost same_key = { is_same_grant };

    ghost key_of = { λ a. (a.party, role_index a.role) };

    ghost by_pairs = { grants_by_pairs };

    fn key(&self) -> (u64, u64) {
        (self.party, self.role as u64)
    }
}

impl Keyed for GroupMember {
    ghost same_key = { is_same_member };

    ghost key_of = { λ a. (a.group, a.member.party) };

    ghost by_pairs = { members_by_pairs };

    fn key(&self) -> (u64, u64) {
        (self.group, self.member.party)
    }
}

impl Keyed for Naming {
    ghost same_key = { is_same_naming };

    ghost key_of = { λ a. (a.mutation, a.unit) };

    ghost by_pairs = { namings_by_pairs };

    fn key(&self) -> (u64, u64) {
        (self.mutation, self.unit)
    }
}

impl Keyed for Mandate {
    ghost same_key = { is_same_mandate };

    ghost key_of = { λ a. (a.principal, a.agent) };

    ghost by_pairs = { mandates_by_pairs };

    fn key(&self) -> (u64, u64) {
        (self.principal, self.agent)
    }
}
