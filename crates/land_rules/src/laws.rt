//! The laws of the policy, for a reader who wants to know its consequences. Each is the contract of a
//! function with an empty body, and is stated only over the definitions.
ghost use Rattle.land_rules.specs.ActLaws as decisions;
ghost use Rattle.land_rules.specs.Alike as alike;
ghost use Rattle.land_rules.specs.CircleLaws as mandates;
ghost use Rattle.land_rules.specs.Laws as policy;
ghost use Rattle.land_rules.specs.SightLaws as sight;
ghost use Rattle.land_rules.specs.StandingLaws as standing;

// ---- verdicts and lists

/// The rules on each request are in ascending order.
pub fn rules_are_ordered()
    ensures { policy.RulesAreOrdered }
{}

/// A verdict is the number of the first rule that denies. It allows exactly if no rule denies.
pub fn verdicts_are_least()
    ensures { policy.VerdictsAreLeast }
{}

/// The list of a kind is ascending, and it has a number exactly if no rule denies the view of that object.
pub fn seen_lists_are_exact()
    ensures { policy.SeenListsAreExact }
{}

// ---- mandates

/// The circle of a party has the party itself and each party that gave it a mandate. The principals of those
/// are not in it.
pub fn circles_are_of_mandates()
    ensures { mandates.CirclesAreOfMandates }
{}

/// Without mandates, the circle of a party has only the party itself.
pub fn circles_without_mandates()
    ensures { mandates.CirclesWithoutMandates }
{}

/// A citizen sees exactly the objects that a member of its circle at the requested time would see without
/// mandates. So its lists are the union of their lists.
pub fn circles_see_together()
    ensures { mandates.CirclesSeeTogether }
{}

/// Mandates change only what citizens see. In every other role, the same rules deny the same views with and
/// without mandates.
pub fn mandates_serve_citizens()
    ensures { mandates.MandatesServeCitizens }
{}

// ---- visible objects

/// A citizen sees a group if it is a member at the requested time, or has a mandate of a member then. The
/// current members do not matter.
pub fn members_see_their_groups()
    ensures { policy.MembersSeeGroups }
{}

/// The members of a group have what the group has. The members at the requested time see the units in which
/// the group has a right then, and the entries of these units that are not mortgages. So do the agents of
/// their mandates.
pub fn members_are_holders()
    ensures { sight.MembersAreHolders }
{}

/// An ended entry gives no sight: rule 11 denies a citizen a unit in which no member of its circle has a
/// right at the requested time.
pub fn ended_entries_give_no_sight()
    ensures { sight.EndedEntriesGiveNoSight }
{}

/// A citizen sees the mortgages of a unit if a member of its circle is an owner there. Rule 12 denies them to
/// every other citizen, for example a lessee.
pub fn only_owners_see_mortgages()
    ensures { sight.OnlyOwnersSeeMortgages }
{}

/// A bank sees the units on which it has a mortgage, and their entries except the mortgages of other
/// creditors.
pub fn banks_see_by_their_mortgages()
    ensures { sight.BanksSeeByTheirMortgages }
{}

/// A bank, a conveyancer and a certified surveyor see exactly the mutations that they lodged, decided or not.
pub fn lodgers_see_their_mutations()
    ensures { sight.LodgersSeeTheirMutations }
{}

/// A conveyancer sees exactly the units that exist and to which one of its undecided mutations refers.
pub fn conveyancers_see_by_their_lodgings()
    ensures { sight.ConveyancersSeeByTheirLodgings }
{}

// ---- denials reveal nothing unseen

/// The denial of a view reveals only that the object is not visible. In a sound register, and in the empty
/// one before the first change, a visible object is allowed, and the number of a denial follows from the
/// caller's role and the kind. Two cases get rule 27 instead: a caller that does not exist and views itself,
/// and a conveyancer's view of a unit that does not exist and to which its own undecided mutation refers.
pub fn denials_reveal_only_sight()
    ensures { policy.DenialsRevealOnlySight }
{}

/// Verdicts reveal nothing unseen. If two registers look alike to a caller now, and two look alike at the
/// requested time, each view, list and sheet gets the same verdict in both, with the same number.
pub fn verdicts_reveal_nothing_unseen()
    ensures { alike.VerdictsRevealNothingUnseen }
{}

// ---- decisions

/// A party that lodged a mutation may neither approve nor refuse it, in any role.
pub fn lodgers_do_not_decide()
    ensures { decisions.LodgersDoNotDecide }
{}

/// A state administrator may approve and refuse the mutations that other parties lodged. Rule 10 denies it
/// the decision on its own.
pub fn administrators_decide_for_others()
    ensures { decisions.AdministratorsDecideForOthers }
{}

// ---- callers, roles and times

/// Rule 1 denies every request of a caller that is not a party of the register now, in any role. It denies
/// nothing to any other caller.
pub fn unregistered_callers_are_denied()
    ensures { standing.UnregisteredCallersAreDenied }
{}

/// Rule 2 denies every request in a role that the caller does not hold now, and denies nothing in a role that
/// it holds. So only a party of the register, in a role that it holds now, is ever allowed anything.
pub fn roles_are_held()
    ensures { standing.RolesAreHeld }
{}

/// Citizens, notaries and state administrators get the same verdict on the past as on the present. Rule 3
/// denies the past to banks, conveyancers and certified surveyors that hold their role, and it denies nothing
/// else.
pub fn three_roles_see_only_the_present()
    ensures { standing.ThreeRolesSeeOnlyThePresent }
{}

// ---- acts that are reserved to roles

/// Only state administrators do acts of the office, which are all acts except lodgings and mandates. They may
/// do each of them, except decide on a mutation that they lodged. Rule 4 denies these acts in other roles,
/// and it denies nothing else.
pub fn office_acts_are_for_administrators()
    ensures { standing.OfficeActsAreForAdministrators }
{}

/// Only conveyancers and notaries lodge transfers, and both may lodge any transfer. Rule 5 denies it in other
/// roles, and it denies nothing else.
pub fn conveyancers_and_notaries_lodge_transfers()
    ensures { standing.ConveyancersAndNotariesLodgeTransfers }
{}

/// Only certified surveyors lodge subdivisions and mergers, and they may lodge any of them. Rule 6 denies it
/// in other roles, and it denies nothing else.
pub fn surveyors_lodge_subdivisions_and_mergers()
    ensures { standing.SurveyorsLodgeSubdivisionsAndMergers }
{}

/// Only banks and notaries lodge mortgages and discharges, and notaries may lodge them for any creditor. Rule
/// 7 denies it in other roles, and it denies nothing else.
pub fn banks_and_notaries_lodge_mortgages()
    ensures { standing.BanksAndNotariesLodgeMortgages }
{}

/// A bank may lodge the mortgages of which it is the creditor. Rule 8 denies it the mortgages of other
/// creditors, and it denies nothing else.
pub fn banks_lodge_their_own_mortgages()
    ensures { standing.BanksLodgeTheirOwnMortgages }
{}

/// A bank may lodge the discharge of a mortgage of which it is the creditor now, and name any unit. Rule 9
/// denies it the discharge of any other number: no entry, an entry that is not a mortgage, or the mortgage of
/// another creditor. It denies nothing else.
pub fn banks_discharge_their_own_mortgages()
    ensures { standing.BanksDischargeTheirOwnMortgages }
{}

/// Only citizens give and withdraw mandates; rule 28 denies it in other roles, and it denies nothing else.
/// Each citizen may give a mandate, and withdraw a mandate of which it is the principal or the agent; rule 29
/// denies it the withdrawal of any other mandate, and it denies nothing else.
pub fn citizens_give_mandates()
    ensures { standing.CitizensGiveMandates }
{}
