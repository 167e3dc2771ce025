//! Replies that are prepared before their change is written.
ghost use Rattle.std.specs.Prelude.{◌≡◌};

use crate::reply::Reply;
use land_core::change::Change;

/// A change to be written, with its stamp.
#[derive(Debug, Drop)]
pub struct Writing {
    /// The change.
    pub change: Change,
    /// The stamp, in Unix milliseconds.
    pub stamp: i64,
}

/// A reply, valid once its change is written, if it has one.
#[derive(Debug, Drop)]
pub struct Prepared {
    /// The reply.
    pub reply: Reply,
    /// The change to write first.
    pub writing: Option<Writing>,
}

impl Prepared {
    /// Returns the reply, which is valid only once the change is written.
    pub fn reply(&self) -> &Reply
        ensures { result.now ≡ self.now.reply }
    {
        &self.reply
    }
}
