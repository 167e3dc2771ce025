//! Kinds of contents, by the words of their acts.
ghost use Rattle.std.specs.Prelude.{◌≡◌};
ghost use Rattle.land_wire_json.specs.Bodies.Mutations.{content_kind_of};

use crate::bodies::wire_fault::WireFault;

/// The kind of a content.
#[derive(Clone, Copy, Debug, PartialEq, Eq)]
pub enum ContentKind {
    /// A share goes to a receiver.
    Transfer,
    /// A parcel is divided into parts.
    Subdivision,
    /// Parcels are merged into one.
    Merger,
    /// A unit becomes the security for a loan.
    Mortgage,
    /// A mortgage ends.
    Discharge,
}

impl ContentKind {
    /// Returns the kind for the word of its act. Words are case-sensitive. Errors: 133 for any other word.
    pub fn of(word: &str) -> Result<ContentKind, WireFault>
        ensures { result ≡ content_kind_of word.now }
    {
        if word == "transfer" {
            Ok(ContentKind::Transfer)
        } else if word == "subdivision" {
            Ok(ContentKind::Subdivision)
        } else if word == "merger" {
            Ok(ContentKind::Merger)
        } else if word == "mortgage" {
            Ok(ContentKind::Mortgage)
        } else if word == "discharge" {
            Ok(ContentKind::Discharge)
        } else {
            Err(WireFault::Text)
        }
    }
}
