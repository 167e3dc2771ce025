//! Writes bytes.
ghost use Rattle.std.specs.Prelude.{◌<◌, length, take, IfErr, OnOk};
ghost use Rattle.std.specs.Io.KnownBytes.{Appends};

use std::io::Write;

/// Writes all bytes. If the writer fails or accepts 0 bytes, the error is the number of bytes written before.
pub fn send<W: Write>(writer: &mut W, bytes: &[u8]) -> Result<(), usize>
    ensures ok { OnOk result (Appends (W.contents writer.old) (W.contents writer.new) bytes.now) }
    ensures err { IfErr result (λ n. (n < length bytes.now)
        × Appends (W.contents writer.old) (W.contents writer.new) (take n bytes.now)) }
{
    let mut done = 0;
    while done < bytes.len() {
        match writer.write(&bytes[done..]) {
            Ok(0) | Err(_) => return Err(done),
            Ok(n) => done += n,
        }
    }
    Ok(())
}
