//! Replies.
use crate::view::View;
use land_core::change::Done;
use land_core::object::Object;
use land_core::sequence::NumberList;

/// The reply to a request.
#[derive(Debug, Drop)]
pub enum Reply {
    /// The requested object.
    Object(Object),
    /// The numbers of a kind that the caller sees, ascending.
    Numbers(NumberList),
    /// A unit, for its title sheet.
    Sheet(View),
    /// The receipt of an act, performed now or before.
    Done(Done),
    /// The policy denies the request: the number of the first rule that denies it.
    Denied(u8),
    /// The request is invalid: 135 if its moment is in the future.
    Fault(u16),
    /// The act is refused: the number of the first refusal whose condition holds.
    Refused(u16),
    /// The store failed: 501, 502 or 503.
    Store(u16),
}
