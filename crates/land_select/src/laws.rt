//! Laws, each stated on definitions only.
ghost use Rattle.land_select.specs.Laws.{SightTextsAreTheRules};

use land_select_queries::joins::laws::texts_select;
use land_select_queries::sights::laws::selections_are_the_rules;

/// States that the SQL statements of a role's sight of a kind, on tables that hold a sound timeline and with
/// any indexes, together return exactly the numbers that the policy, without mandates, lets the caller see at
/// a time.
pub fn sight_texts_are_the_rules()
    ensures { SightTextsAreTheRules }
{
    texts_select();
    selections_are_the_rules();
}
