//! Texts. Contracts see them as their bytes in UTF-8.
ghost use Rattle.std.specs.Prelude.{◌≡◌, string_bytes};

use crate::duplicate::Duplicate;
use std::alloc::{AllocError, Global};
use std::marker::Model;

/// A text of the register: a name, a title or a wording.
#[derive(Debug, Drop)]
pub struct Text {
    text: String,
}

impl Model for Text {
    ghost use Rattle.std.specs.Prelude.{List, ℕ, string_bytes};

    ghost Value = { List ℕ };

    ghost view = { λ a. string_bytes a.text };
}

impl Text {
    /// Wraps a string.
    pub fn new(text: String) -> Text
        ensures { result ≡ string_bytes text }
    {
        Text { text }
    }

    /// Returns the text as a slice.
    pub fn as_str(&self) -> &str
        ensures { result.now ≡ self.now }
    {
        self.text.as_str()
    }

    /// Returns the string.
    pub fn into_string(self) -> String
        ensures { string_bytes result ≡ self }
    {
        let Text { text } = self;
        text
    }
}

impl Duplicate for Text {
    fn copy(&self, alloc: Global) -> Result<Text, AllocError> {
        Ok(Text {
            text: String::from_str(alloc, self.as_str())?,
        })
    }
}
