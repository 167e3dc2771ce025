//! Laws of the definitions. Calling a function here gives its law as a fact; it does nothing else.
ghost use Rattle.land_core.specs.Laws.{SoundnessByNumber};

use land_fraction::laws::wholeness_of_lists;

/// Proves that soundness is equivalent to conditions on the record at each number.
pub fn soundness_by_number()
    ensures { SoundnessByNumber }
{
    wholeness_of_lists();
}
