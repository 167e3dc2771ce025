//! The roles of parties.
ghost use Rattle.std.specs.Prelude.{◌≡◌, ◌==◌};
ghost use Rattle.std.proofs.Common.{rules};
ghost use Rattle.std.specs.Cmp.{partial_order_from_own_ties};
ghost use Rattle.std.specs.Cmp.Rules.{comparing};
ghost use Rattle.std.specs.Ordering.{on, as_partial_cmp};
ghost use Rattle.land_core.specs.Role.{role_index, role_cmp};

use crate::duplicate::Duplicate;
use std::alloc::{AllocError, Global};
use std::cmp::Ordering;

/// A role of a party (LA_PartyRoleType).
#[derive(Clone, Copy, Debug)]
pub enum Role {
    /// Manages its own holdings. Each single party has this role from its enrolment.
    Citizen,
    /// Lodges transfers for others.
    Conveyancer,
    /// Lodges transfers, mortgages and discharges, and sees everything.
    Notary,
    /// Lodges mortgages and discharges as their creditor.
    Bank,
    /// Lodges subdivisions and mergers.
    CertifiedSurveyor,
    /// Maintains the register: enrols, grants, registers, decides.
    StateAdministrator,
}

impl Role {
    fn place(self) -> u8
        ensures { result ≡ role_index self }
    {
        self as u8
    }
}

impl Duplicate for Role {
    fn copy(&self, _alloc: Global) -> Result<Role, AllocError> {
        Ok(*self)
    }
}

impl PartialEq for Role {
    ghost eq = { on role_index ◌==◌ };

    ghost laws = { Prim.search (comparing, rules) };

    fn eq(&self, other: &Role) -> bool {
        self.place() == other.place()
    }
}

impl Eq for Role {
    ghost laws = { Prim.search (comparing, rules) };
}

impl PartialOrd for Role {
    ghost partial_cmp = { as_partial_cmp role_cmp };

    ghost laws = { partial_order_from_own_ties (Prim.search (comparing, rules))
        (Prim.search (comparing, rules)) };

    fn partial_cmp(&self, other: &Role) -> Option<Ordering> {
        Some(self.cmp(other))
    }
}

impl Ord for Role {
    ghost cmp = { role_cmp };

    ghost total = { Prim.search (comparing, rules) };

    ghost matches_partial_cmp = { Prim.search (comparing, rules) };

    ghost matches_eq = { Prim.search (comparing, rules) };

    fn cmp(&self, other: &Role) -> Ordering {
        self.place().cmp(&other.place())
    }
}
