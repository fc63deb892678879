// What is read of a file or a stream, into a `Vec` or a lent buffer: no more bytes are taken than tell that it is too
// long.
#![tactic(auto)]

ghost use Rattle.std.specs.Prelude.{◌≡◌, ◌≢◌, ◌+◌, length, take, IfOk, IfErr, IfSome};
ghost use Rattle.std.specs.Io.{ReadsAtMost};
ghost use Rattle.std.specs.IoError.{error_kind};
ghost use Rattle.common.specs.Limits.{max_bytes};

use std::alloc::Global;
use std::io::{self, ErrorKind, Read};

#[cfg(test)]
mod tests;

/// The bytes that the reader has left, of a longer input the first `most` of them. A read that is interrupted is made
/// again; any other that fails is the error, so that it is never taken for the end.
pub fn read_up_to<R: Read + Drop>(alloc: Global, reader: R, most: usize) -> io::Result<Vec<u8>>
    ensures bytes { IfOk result (λ v. IfSome (R.remaining reader) (λ xs. v.items ≡ take most xs)) }
    ensures retried { IfErr result (λ e. error_kind e ≢ ErrorKind.Interrupted) }
{
    let mut bytes = Vec::new(alloc);
    reader.take(most as u64).read_to_end(&mut bytes)?;
    Ok(bytes)
}

/// The same of a bundle or a script: one byte more than it may have, so that a longer one shows.
pub fn read_bundle<R: Read + Drop>(alloc: Global, reader: R) -> io::Result<Vec<u8>>
    ensures bytes { IfOk result (λ v. IfSome (R.remaining reader) (λ xs. v.items ≡ take (max_bytes + 1) xs)) }
    ensures retried { IfErr result (λ e. error_kind e ≢ ErrorKind.Interrupted) }
{
    read_up_to(alloc, reader, common::MAX_BYTES + 1)
}

/// Puts the bytes that the reader has left, of a longer input the first ones, at the start of a lent buffer, without a
/// heap, and gives how many they are. A read that is interrupted is made again; any other that fails is the error, so
/// that it is never taken for the end. Behind these bytes, and after an error, the buffer may hold anything.
pub fn fill<R: Read + Drop>(mut reader: R, buffer: &mut [u8]) -> io::Result<usize>
    ensures bytes { IfOk result (λ n. IfSome (R.remaining reader)
        (λ xs. take n buffer.new ≡ take (length buffer.old) xs)) }
    ensures bound { ReadsAtMost result buffer.new }
    ensures len { length buffer.new ≡ length buffer.old }
    ensures retried { IfErr result (λ e. error_kind e ≢ ErrorKind.Interrupted) }
{
    let mut filled = 0;
    for _ in 0..u64::MAX {
        if filled >= buffer.len() {
            return Ok(filled);
        }
        match reader.read(&mut buffer[filled..]) {
            Ok(0) => return Ok(filled),
            Ok(more) => filled += more,
            Err(e) if e.kind() == ErrorKind::Interrupted => {}
            Err(e) => return Err(e),
        }
    }
    // Reads were interrupted too often.
    Err(io::Error::from(ErrorKind::TimedOut))
}
