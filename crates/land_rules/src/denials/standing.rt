//! The standing rules, decided from the evidence.
ghost use Rattle.std.specs.Prelude.{◌≡◌};
ghost use Rattle.land_rules.specs.Denials.Standing.{mutation_of_ask, entry_of_ask, entry_of_act};
ghost use Rattle.land_rules.specs.Denials.Standing.{entry_of_content};
ghost use Rattle.land_rules.specs.Denials.Standing.{mutation_of_act};
ghost use Rattle.land_rules.specs.Rules.{first_denial, standing_rules};

use crate::rules::verdict;
use crate::verdict::Verdict;
use land_core::act::Act;
use land_core::ask::Ask;
use land_core::caller::Caller;
use land_core::content::Content;
use land_core::kind::Kind;
use land_core::register::Register;

/// Returns the number of the entry that a request would discharge, if there is one.
pub fn entry_of_ask(ask: &Ask) -> Option<u64>
    ensures { result ≡ entry_of_ask ask.now }
{
    match ask {
        Ask::Do(act) => entry_of_act(act),
        Ask::View { .. } | Ask::List { .. } | Ask::Sheet { .. } => None,
    }
}

fn entry_of_act(act: &Act) -> Option<u64>
    ensures { result ≡ entry_of_act act.now }
{
    match act {
        Act::Lodge(lodging) => match &lodging.content {
            Content::Discharge(discharge) => Some(discharge.mortgage),
            Content::Transfer(_)
            | Content::Subdivision(_)
            | Content::Merger(_)
            | Content::Mortgage(_) => None,
        },
        _ => None,
    }
}

/// Returns the number of the mutation that a request would approve or refuse, if there is one.
pub fn mutation_of_ask(ask: &Ask) -> Option<u64>
    ensures { result ≡ mutation_of_ask ask.now }
{
    match ask {
        Ask::Do(Act::Approve(decision) | Act::Refuse(decision)) => Some(decision.mutation),
        Ask::Do(_) | Ask::View { .. } | Ask::List { .. } | Ask::Sheet { .. } => None,
    }
}

/// Returns the first standing rule that denies a request. `now` is the register now, or sufficient evidence
/// of it.
pub fn standing_verdict(now: &Register, caller: Caller, ask: &Ask, past: bool) -> Verdict
    ensures { result ≡ first_denial (standing_rules now.now caller ask.now past) }
{
    match ask {
        Ask::Do(_) => verdict(now, now, caller, ask, past),
        Ask::View { .. } | Ask::List { .. } | Ask::Sheet { .. } => {
            let list = Ask::List {
                kind: Kind::Party,
                at: None,
            };
            verdict(now, now, caller, &list, past)
        }
    }
}
