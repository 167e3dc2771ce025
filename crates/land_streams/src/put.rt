//! Writes pieces of a text and counts their bytes.
ghost use Rattle.std.specs.Prelude.{◌<◌, ◌+◌, length, IfErr, IfOk};
ghost use Rattle.land_streams.specs.Writing.{WritesPrefix, WritesAll};

use crate::send::send;
use std::io::Write;

/// Writes a piece, and returns `written` plus its length. If the writer fails or accepts 0 bytes, the error
/// is `written` plus the number of bytes of the piece that were written. If the count would exceed 64 bits,
/// writes nothing.
pub fn put<W: Write>(writer: &mut W, written: u64, piece: &[u8]) -> Result<u64, u64>
    ensures ok { IfOk result
        (λ n. WritesAll piece.now written n (W.contents writer.old) (W.contents writer.new)) }
    ensures err { IfErr result
        (λ n. WritesPrefix piece.now written n (W.contents writer.old) (W.contents writer.new)) }
    ensures short { IfErr result (λ n. n < written + length piece.now) }
{
    let length = piece.len() as u64;
    if u64::MAX - written < length {
        return Err(written);
    }
    match send(writer, piece) {
        Ok(()) => Ok(written + length),
        Err(n) => Err(written + n as u64),
    }
}
