//! The laws of transfers. Each is the contract of a function with an empty body, and is stated only over the
//! definitions.
ghost use Rattle.land_acts.specs.Mutations.TransferLaws.{ReceiversHaveOneRight, TransfersKeepSums};

/// A transfer without refusal preserves the sum of the shares of the right's type in the unit.
pub fn transfers_keep_sums()
    ensures { TransfersKeepSums }
{}

/// After a transfer without refusal, the receiver has exactly one right of the type in the unit.
pub fn receivers_have_one_right()
    ensures { ReceiversHaveOneRight }
{}
