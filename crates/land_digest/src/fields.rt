//! Writes fields to a hasher.
ghost use Rattle.std.specs.Prelude.{◌≡◌};
ghost use Rattle.land_digest.specs.Entries.{Gains};
ghost use Rattle.land_digest.specs.Fields.{Number, Text, field_text, number_field};

use itoa::Buffer;
use sha2::{Digest, Sha256};

/// Writes an integer.
pub(crate) fn put_integer(hasher: &mut Sha256, n: i64)
    ensures { Gains hasher.old hasher.new (field_text (Number n)) }
{
    let mut buffer = Buffer::new();
    hasher.update(buffer.format(n).as_bytes());
    hasher.update(b";");
}

/// Writes a number.
pub(crate) fn put_number(hasher: &mut Sha256, n: u64)
    ensures { Gains hasher.old hasher.new (field_text (number_field n)) }
{
    let mut buffer = Buffer::new();
    hasher.update(buffer.format(n).as_bytes());
    hasher.update(b";");
}

/// Writes a string.
pub(crate) fn put_text(hasher: &mut Sha256, text: &str)
    ensures { Gains hasher.old hasher.new (field_text (Text text.now)) }
{
    put_bytes(hasher, text.as_bytes());
}

fn put_bytes(hasher: &mut Sha256, bytes: &[u8])
    ensures { Gains hasher.old hasher.new (field_text (Text bytes.now)) }
{
    let mut buffer = Buffer::new();
    hasher.update(buffer.format(bytes.len()).as_bytes());
    hasher.update(b":");
    hasher.update(bytes);
}
