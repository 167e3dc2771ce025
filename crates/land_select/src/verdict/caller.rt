//! Authorizes the caller, by lookups.
ghost use Rattle.std.specs.Prelude.{◌≡◌};
ghost use Rattle.land_core.specs.Grants.{grant_to, has_grant};
ghost use Rattle.land_core.specs.Register.{stands};
ghost use Rattle.land_core.specs.declared.kind.Kind.TheVariants as kinds;
ghost use Rattle.land_rules.specs.Denials.Standing.{mutation_of_ask, entry_of_ask};
ghost use Rattle.land_select.specs.Verdicts.{IsCallerWithRoles, IsEvidence, IsStandingVerdictWith};
ghost use Rattle.land_select.specs.Verdicts.{cached_mutations, holder_verdict, is_read};
ghost use Rattle.land_select.specs.Verdicts.{placeholder_party, record_at, roles_in};
ghost use Rattle.land_select.specs.Views.{AgreesWithRegister};
ghost use Rattle.land_select_queries.specs.Lookups.Parts.{ReadsPart};
ghost use Rattle.land_select_queries.specs.TableReads.{ReadsTables};
ghost use Rattle.land_tables_schema.specs.Connections.{HasRegisterTables, IsUsable, LeavesAutocommit};

use crate::cache::CachedValue;
use crate::known_roles::claimed_role;
use land_core::ask::Ask;
use land_core::caller::Caller;
use land_core::kind::PartyKind;
use land_core::laws::soundness_by_number;
use land_core::mutation::MutationRecord;
use land_core::party::PartyRecord;
use land_core::records::Records;
use land_core::register::Register;
use land_core::role::Role;
use land_core::roles::Roles;
use land_core::rrr::RrrRecord;
use land_core::text::Text;
use land_rules::denials::evidence::evidence_of;
use land_rules::denials::laws::{evidence_is_enough, lookups_are_enough};
use land_rules::denials::standing::{entry_of_ask, mutation_of_ask, standing_verdict};
use land_rules::verdict::Verdict;
use land_select_queries::lookups::existence::party_exists;
use land_select_queries::lookups::{by_number, of_party};
use land_tables_rows::listing::fault::ReadFault;
use sqlite::{Alter, Connection};
use std::alloc::Global;

/// Checks if a caller holds the role of its request.
fn is_held(roles: &Roles, caller: Caller) -> bool
    ensures { result ≡ has_grant roles.now (grant_to caller.party caller.role) }
{
    roles.contains(claimed_role(caller))
}

/// Reads if a caller exists at a time, and its roles. A party with a role exists, so the party is read only
/// if the caller does not hold the role of its request.
fn read_caller_and_roles<S: Alter>(
    alloc: Global,
    conn: &mut Connection<S>,
    caller: Caller,
    at: i64,
) -> Result<(bool, Roles), ReadFault>
    requires has_tables { HasRegisterTables S.Store conn.old }
    ensures reads_only { ReadsTables S.Store result
        (AgreesWithRegister (λ r. (stands r kinds.Party caller.party, roles_in r caller.party)) at) conn.old
        conn.new }
    ensures autocommit { LeavesAutocommit conn.old conn.new }
{
    soundness_by_number();
    let roles = of_party::roles(alloc, conn, caller.party, at)?;
    if is_held(&roles, caller) {
        return Ok((true, roles));
    }
    let there = party_exists(alloc, conn, caller.party, at)?;
    Ok((there, roles))
}

/// Reads if a caller exists at a time, and roles that decide if it holds the one that it claims. Nothing is
/// read for a caller that is known to hold it.
fn caller_and_roles<S: Alter>(
    alloc: Global,
    conn: &mut Connection<S>,
    caller: Caller,
    is_held: bool,
    at: i64,
) -> Result<(bool, Roles), ReadFault>
    requires open { IsUsable S.Store conn.old }
    requires has_tables { HasRegisterTables S.Store conn.old }
    ensures reads_only { ReadsTables S.Store result (IsCallerWithRoles caller is_held at) conn.old conn.new }
    ensures autocommit { LeavesAutocommit conn.old conn.new }
{
    soundness_by_number();
    if is_held {
        let mut roles = Roles::new(alloc);
        roles.insert(claimed_role(caller))?;
        return Ok((true, roles));
    }
    read_caller_and_roles(alloc, conn, caller, at)
}

/// Reads the entry of a number at a time, if there is a number.
fn entry_at<S: Alter>(
    alloc: Global,
    conn: &mut Connection<S>,
    number: Option<u64>,
    at: i64,
) -> Result<Option<RrrRecord>, ReadFault>
    requires open { IsUsable S.Store conn.old }
    requires has_tables { HasRegisterTables S.Store conn.old }
    ensures reads_only { ReadsTables S.Store result (ReadsPart (λ r. record_at r.rrrs number) at) conn.old
        conn.new }
    ensures autocommit { LeavesAutocommit conn.old conn.new }
{
    match number {
        Some(number) => by_number::record(alloc, conn, number, at),
        None => Ok(None),
    }
}

/// Reads the mutation of a number at a time, if there is a number.
fn mutation_at<S: Alter>(
    alloc: Global,
    conn: &mut Connection<S>,
    number: Option<u64>,
    at: i64,
) -> Result<Option<MutationRecord>, ReadFault>
    requires open { IsUsable S.Store conn.old }
    requires has_tables { HasRegisterTables S.Store conn.old }
    ensures reads_only { ReadsTables S.Store result (ReadsPart (λ r. record_at r.mutations number) at)
        conn.old
        conn.new }
    ensures autocommit { LeavesAutocommit conn.old conn.new }
{
    match number {
        Some(number) => by_number::record(alloc, conn, number, at),
        None => Ok(None),
    }
}

/// Reads the entry that a request would discharge and the mutation that it would decide, at a time.
fn read_referenced<S: Alter>(
    alloc: Global,
    conn: &mut Connection<S>,
    ask: &Ask,
    at: i64,
) -> Result<(Option<RrrRecord>, Option<MutationRecord>), ReadFault>
    requires open { IsUsable S.Store conn.old }
    requires has_tables { HasRegisterTables S.Store conn.old }
    ensures reads_only { ReadsTables S.Store result
        (ReadsPart (λ r. (
          record_at r.rrrs (entry_of_ask ask.now),
          record_at r.mutations
              (mutation_of_ask ask.now),
        )) at)
        conn.old conn.new }
    ensures autocommit { LeavesAutocommit conn.old conn.new }
{
    let entry = entry_at(alloc, conn, entry_of_ask(ask), at)?;
    let mutation = mutation_at(alloc, conn, mutation_of_ask(ask), at)?;
    Ok((entry, mutation))
}

/// Returns a party with an empty name, if it exists. The standing rules use neither its name nor its kind.
fn placeholder_party(alloc: Global, there: bool) -> Option<PartyRecord>
    ensures { result ≡ placeholder_party there }
{
    if there {
        Some(PartyRecord {
            kind: PartyKind::NaturalPerson,
            name: Text::new(String::new(alloc)),
        })
    } else {
        None
    }
}

/// Reads the evidence for the standing rules at a time.
fn evidence<S: Alter>(
    alloc: Global,
    conn: &mut Connection<S>,
    caller: Caller,
    is_held: bool,
    ask: &Ask,
    at: i64,
) -> Result<Register, ReadFault>
    requires open { IsUsable S.Store conn.old }
    requires has_tables { HasRegisterTables S.Store conn.old }
    ensures reads_only { ReadsTables S.Store result (IsEvidence caller is_held ask.now at) conn.old conn.new }
    ensures autocommit { LeavesAutocommit conn.old conn.new }
{
    soundness_by_number();
    lookups_are_enough();
    let asking = caller_and_roles(alloc, conn, caller, is_held, at)?;
    let asked = read_referenced(alloc, conn, ask, at)?;
    let (there, roles) = asking;
    let (entry, mutation) = asked;
    let party = placeholder_party(alloc, there);
    Ok(evidence_of(alloc, caller, ask, party, roles, entry, mutation)?)
}

/// Checks if a request only reads.
pub(crate) fn is_read(ask: &Ask) -> bool
    ensures { result ≡ is_read ask.now }
{
    match ask {
        Ask::View { .. } | Ask::List { .. } | Ask::Sheet { .. } => true,
        Ask::Do(_) => false,
    }
}

/// Returns the verdict of the standing rules on a request that only reads, of a caller that holds the role
/// that it claims.
fn holder_verdict(caller: Caller, past: bool) -> Verdict
    ensures { result ≡ holder_verdict caller past }
{
    match caller.role {
        Role::Bank | Role::Conveyancer | Role::CertifiedSurveyor if past => Verdict::Denied(3),
        _ => Verdict::Allowed,
    }
}

/// Returns the mutations of the evidence as a cached value, if the request decides one of them.
fn cached_mutations(ask: &Ask, mutations: Records<MutationRecord>) -> CachedValue
    ensures { result ≡ cached_mutations ask.now mutations }
{
    if mutation_of_ask(ask).is_some() {
        CachedValue::Mutations(mutations)
    } else {
        CachedValue::Nothing
    }
}

/// Returns the verdict of the standing rules on a request, by the register at a time: the lowest number of a
/// rule that denies it. Also returns the mutation that the request decides. `is_held` states that the caller
/// is known to hold the role that it claims.
pub(crate) fn read_standing_verdict<S: Alter>(
    alloc: Global,
    conn: &mut Connection<S>,
    caller: Caller,
    is_held: bool,
    ask: &Ask,
    past: bool,
    at: i64,
) -> Result<(Verdict, CachedValue), ReadFault>
    requires open { IsUsable S.Store conn.old }
    requires has_tables { HasRegisterTables S.Store conn.old }
    ensures reads_only { ReadsTables S.Store result (IsStandingVerdictWith caller is_held ask.now past at)
        conn.old conn.new }
    ensures autocommit { LeavesAutocommit conn.old conn.new }
{
    evidence_is_enough();
    soundness_by_number();
    if is_held && is_read(ask) {
        return Ok((holder_verdict(caller, past), CachedValue::Nothing));
    }
    let evidence = evidence(alloc, conn, caller, is_held, ask, at)?;
    let verdict = standing_verdict(&evidence, caller, ask, past);
    Ok((verdict, cached_mutations(ask, evidence.mutations)))
}
