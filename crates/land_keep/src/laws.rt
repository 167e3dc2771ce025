//! Laws, each stated over the definitions alone.
ghost use Rattle.land_keep.specs.Laws.{ChangesKeepSharesWhole, SharesAreWhole, WritingKeepsSound, PastStays};
ghost use Rattle.land_keep.specs.Laws.{ChangeApplies, OpenKeepersFailOnlyForMemory, ReadsUseTwoRegisters};
ghost use Rattle.land_keep.specs.Laws.{RepliesRevealNothingUnseen};

/// Proves that a timeline stays sound after each change that can be written.
pub fn writing_keeps_soundness()
    ensures { WritingKeepsSound }
{}

/// Proves that a change leaves the register at each moment before its stamp unchanged.
pub fn the_past_stays()
    ensures { PastStays }
{}

/// Proves that from a change's stamp on, the register is the last one with the change made.
pub fn a_change_applies_from_its_stamp()
    ensures { ChangeApplies }
{}

/// Proves that at each moment all checked shares and the shares of groups are whole.
pub fn shares_are_whole()
    ensures { SharesAreWhole }
{}

/// Proves that after each accepted change all checked shares and the shares of groups are whole.
pub fn changes_keep_shares_whole()
    ensures { ChangesKeepSharesWhole }
{}

/// Proves that a call that leaves a keeper open fails only if out of memory. The keeper in memory is always
/// open.
pub fn open_keepers_fail_only_for_memory()
    ensures { OpenKeepersFailOnlyForMemory }
{}

/// Proves that the reply to a read depends only on now, the last register and the register at the requested
/// moment.
pub fn reads_use_two_registers()
    ensures { ReadsUseTwoRegisters }
{}

/// Proves that replies reveal nothing unseen (noninterference): if two sound timelines with the same now look
/// alike to a caller, in their last registers and in those at the requested moment, then each view, list and
/// sheet has the same reply in both, including the number of a denial. Acts are not covered: new numbers,
/// stamps, refusals and the default now reveal that other parties have acted.
pub fn replies_reveal_nothing_unseen()
    ensures { RepliesRevealNothingUnseen }
{}
