//! The buffer of the bytes of a stream that are read but not yet consumed.
ghost use Rattle.std.specs.Prelude.{◌≡◌, ◌≤◌, ◌<◌, ◌+◌, ◌*◌, ◌++◌, ◌⊎◌, ℕ, List, length, drop, vec_len};
ghost use Rattle.std.specs.Prelude.{vec_capacity, IfOk, IfErr, IfSome, true, false};
ghost use Rattle.std.specs.Io.KnownBytes.{Consumes, IsAtEnd, Keeps, prepend_known};

use crate::counted_reader::CountedReader;
use crate::stream_fault::StreamFault;
use std::io::Read;

/// The size of one read, in bytes.
const CHUNK_SIZE: usize = 1024;

/// The capacity, in bytes, to which the buffer shrinks after an item, unless it contains more.
const IDLE_CAPACITY: usize = 16_384;

/// Reads one chunk and appends it to the buffer. Returns the number of bytes read; 0 only at the end of the
/// input. No byte of the stream is lost in any case.
///
/// Errors: `Read` if the reader failed or the budget of reads is spent; `NoMemory` if the chunk could not be
/// allocated, in which case the reader was not called.
pub fn read_more<R: Read>(
    reader: &mut CountedReader<'_, R>,
    buffer: &mut Vec<u8>,
) -> Result<usize, StreamFault>
    ensures spends { IfOk result (λ n. reader.old.left ≡ reader.new.left + 1) }
    ensures fewer { reader.new.left ≤ reader.old.left }
    ensures bound { length buffer.new.items + 1024 * reader.new.left
        ≤ length buffer.old.items + 1024 * reader.old.left }
    ensures limit { length buffer.new.items ≤ length buffer.old.items + 1024 }
    ensures grows { IfOk result (λ n. (piece : List ℕ) × (length piece ≡ n)
        × (buffer.new.items ≡ buffer.old.items ++ piece)
        × Consumes (R.remaining reader.old.reader.now) (R.remaining reader.new.reader.now) piece) }
    ensures stream { Keeps (prepend_known buffer.old.items (R.remaining reader.old.reader.now))
        (prepend_known buffer.new.items (R.remaining reader.new.reader.now)) }
    ensures end { IfOk result (λ n. n ≡ 0 → IsAtEnd (R.remaining reader.new.reader.now)) }
    ensures same_reference { reader.new.reader.ghost_name ≡ reader.old.reader.ghost_name }

    // `NoMemory` is returned only if the buffer has no capacity for a chunk; `Read` only if the reader was
    // called or its budget was spent.
    ensures memory { IfErr result
        (λ e. e ≡ StreamFault.NoMemory → vec_capacity buffer.new < vec_len buffer.new + 1024) }
    ensures failed { IfErr result (λ e. e ≡ StreamFault.Read → ((reader.old.left ≡ 0) × (reader.new.left ≡ 0))
        ⊎ ((reader.old.left ≡ reader.new.left + 1) × (vec_len buffer.new + 1024 ≤ vec_capacity buffer.new))) }
{
    if buffer.reserve(CHUNK_SIZE).is_err() {
        return Err(StreamFault::NoMemory);
    }
    let mut piece = [0; CHUNK_SIZE];
    let Ok(n) = reader.read(&mut piece) else {
        return Err(StreamFault::Read);
    };
    if buffer.extend_from_slice(&piece[..n]).is_err() {
        return Err(StreamFault::NoMemory);
    }
    Ok(n)
}

/// Reads until the buffer has at least `end` bytes, without a further chunk. Returns `false` if the stream
/// ends before. Errors: those of `read_more`.
pub fn read_to<R: Read>(
    reader: &mut CountedReader<'_, R>,
    buffer: &mut Vec<u8>,
    end: usize,
) -> Result<bool, StreamFault>
    ensures bound { length buffer.new.items + 1024 * reader.new.left
        ≤ length buffer.old.items + 1024 * reader.old.left }
    ensures fewer { reader.new.left ≤ reader.old.left }
    ensures stream { Keeps (prepend_known buffer.old.items (R.remaining reader.old.reader.now))
        (prepend_known buffer.new.items (R.remaining reader.new.reader.now)) }
    ensures front { IfOk result (λ w. (more : List ℕ) × (buffer.new.items ≡ buffer.old.items ++ more)) }
    ensures unread { end ≤ length buffer.old.items → reader.new ≡ reader.old }
    ensures ahead { length buffer.old.items < end + 1024
        → IfOk result (λ w. length buffer.new.items < end + 1024) }
    ensures limit { (most : ℕ) → end + 1023 ≤ most → length buffer.old.items ≤ most
        → length buffer.new.items ≤ most }
    ensures same_reference { reader.new.reader.ghost_name ≡ reader.old.reader.ghost_name }
    ensures whole { IfOk result (λ w. w ≡ true → end ≤ length buffer.new.items) }
    ensures cut { IfOk result
        (λ w. w ≡ false → IfSome (prepend_known buffer.new.items (R.remaining reader.new.reader.now))
        (λ stream. length stream < end)) }

    // `NoMemory` is returned only if the buffer has no capacity for a chunk; `Read` only if the reader was
    // called or its budget was spent.
    ensures memory { IfErr result
        (λ e. e ≡ StreamFault.NoMemory → vec_capacity buffer.new < vec_len buffer.new + 1024) }
    ensures failed { IfErr result (λ e. e ≡ StreamFault.Read → (reader.new.left ≡ 0)
        ⊎ ((reader.new.left < reader.old.left) × (vec_len buffer.new + 1024 ≤ vec_capacity buffer.new))) }
{
    loop {
        if buffer.len() >= end {
            return Ok(true);
        }
        match read_more(reader, buffer) {
            Err(fault) => return Err(fault),
            Ok(0) => return Ok(false),
            Ok(_) => {}
        }
    }
}

/// Removes the first `n` bytes of the buffer, and frees the capacity that a long body needed.
pub fn consume_front(buffer: &mut Vec<u8>, n: usize)
    requires { n ≤ length buffer.old.items }
    ensures { buffer.new.items ≡ drop n buffer.old.items }
{
    let left = buffer.len() - n;
    buffer.copy_within(n.., 0);
    buffer.truncate(left);
    buffer.shrink_to(IDLE_CAPACITY);
}
