// Bytes read from a file or from standard input into a lent slice. What is longer is cut off: a program whose slice has more places than it accepts
// bytes sees that by the slice being full.

#![tactic(auto)]

ghost use Rattle.std.specs.Prelude.{◌≡◌, ◌<◌, IfOk, length, take};
ghost use Rattle.std.specs.Io.{ReadsAtMost};
ghost use Rattle.std.specs.Io.KnownBytes.{Consumes, IsAtEnd};

use std::io;
use std::io::Read;

// 65,536 zeros, more than a list or a tape that is read may have bytes.
pub fn large_buffer() -> [u8; 65536]
    ensures { 65536 ≡ length result }
{
    [0; 65536]
}

// Reads until the slice is full or the input ends: how many bytes stand at its start now, as std's `read` answers. Where the reader's bytes are known, they
// are the first of these.
pub fn read_full<R: Read>(reader: &mut R, space: &mut [u8]) -> io::Result<usize>
    ensures count { ReadsAtMost result space.new }
    ensures bytes { IfOk result (λ n. Consumes (R.remaining reader.old) (R.remaining reader.new) (take n space.new)) }
    ensures end { IfOk result (λ n. n < length space.new → IsAtEnd (R.remaining reader.new)) }
{
    let mut done = 0;
    // Each turn goes on by as many bytes as a read gave, so this is no walk over indices.
    while done < space.len() {
        let n = reader.read(&mut space[done..])?;
        if n == 0 {
            break;
        }
        done += n;
    }
    Ok(done)
}

#[cfg(test)]
mod tests;
