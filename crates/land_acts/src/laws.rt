//! The laws of the acts. Each is the contract of a function with an empty body, and is stated only over the
//! definitions.
ghost use Rattle.land_acts.specs.AreaLaws.{MergersKeepAreas, SubdivisionsKeepAreas};
ghost use Rattle.land_acts.specs.GroundLaws.{MergersKeepGround, SubdivisionsKeepGround};
ghost use Rattle.land_acts.specs.Laws.{SlicesSuffice, AcceptedKeepsSound, AcceptedNamesKeysOnce};
ghost use Rattle.land_acts.specs.Laws.{AcceptedReturnsStamp, NeededSlicesSuffice, NothingWithoutStamp};
ghost use Rattle.land_acts.specs.MutationLaws.{DecisionsStay, LodgingsExist, LodgingsStay};
ghost use Rattle.land_acts.specs.MutationLaws.{RepeatsGetTheFirstReceipt};
ghost use Rattle.land_acts.specs.RegisterAreas.{ApprovedRegistersKeepTheirArea, OnlyRegistrationsAddArea};

/// An act has the same outcome on a register and on its slice.
pub fn slices_suffice()
    ensures { SlicesSuffice }
{}

/// An act has the same outcome on a register and on the needed part of its slice.
pub fn needed_slices_suffice()
    ensures { NeededSlicesSuffice }
{}

/// An accepted act of a caller that holds its role keeps a sound register sound, and never reuses a number.
pub fn accepted_acts_keep_soundness()
    ensures { AcceptedKeepsSound }
{}

/// The change of an accepted act of a sound register writes or ends no key twice.
pub fn changes_name_keys_once()
    ensures { AcceptedNamesKeysOnce }
{}

/// The receipt of an accepted act has the stamp of its change.
pub fn accepted_acts_return_their_stamp()
    ensures { AcceptedReturnsStamp }
{}

/// Without a stamp, no act changes anything.
pub fn nothing_is_accepted_without_a_stamp()
    ensures { NothingWithoutStamp }
{}

/// After a lodging, the mutation and its document exist under the next two numbers.
pub fn lodgings_exist()
    ensures { LodgingsExist }
{}

/// Every accepted change preserves them, except for the state of the mutation.
pub fn lodgings_stay()
    ensures { LodgingsStay }
{}

/// A repeat gets the receipt of the first lodging, even if a refusal would apply.
pub fn repeats_get_the_first_receipt()
    ensures { RepeatsGetTheFirstReceipt }
{}

/// No accepted change modifies a decided mutation.
pub fn decisions_stay()
    ensures { DecisionsStay }
{}

/// The parcels of an approved subdivision have in total the area of the parcel that ended.
pub fn subdivisions_keep_areas()
    ensures { SubdivisionsKeepAreas }
{}

/// The parcel of an approved merger has the total area of the parcels that ended.
pub fn mergers_keep_areas()
    ensures { MergersKeepAreas }
{}

/// The parcels of an approved subdivision cover exactly the ground of the parcel that ended.
pub fn subdivisions_keep_ground()
    ensures { SubdivisionsKeepGround }
{}

/// The parcel of an approved merger covers exactly the ground of the parcels that ended.
pub fn mergers_keep_ground()
    ensures { MergersKeepGround }
{}

/// An approval replaces the parcels that the mutation cuts or merges by new ones that cover the same ground.
/// Every other parcel is unchanged, and so is the total area of the register.
pub fn approved_registers_keep_their_area()
    ensures { ApprovedRegistersKeepTheirArea }
{}

/// An accepted act adds to the total area of the register exactly the area of the parcels that it registers.
/// So only registrations change it.
pub fn only_registrations_add_area()
    ensures { OnlyRegistrationsAddArea }
{}
