// What the printing programs share: a tape is read from an open file or from standard input, and its report
// and the Z of every qubit are written out. The buffer has more places than a tape that is printed may have
// bytes, so a longer one shows.

#![tactic(auto)]

ghost use Rattle.std.specs.Prelude.{OnOk, IfSome};
ghost use Rattle.std.specs.Io.KnownBytes.{Appends};
ghost use Rattle.text.specs.Print.{printed};

use reading::{large_buffer, read_full};
use std::io;
use std::io::{Read, Write};
use text::{MAX_TEXT, print_tape};

// Where the bytes of the reader and of the writer are known, the text of all that the reader has left is written, and nothing else.
pub fn print_from<R: Read, W: Write>(input: &mut R, output: &mut W) -> io::Result<()>
    ensures { OnOk result (IfSome (R.remaining input.old) (λ tape. Appends (W.contents output.old) (W.contents output.new) (printed tape))) }
{
    let mut tape = large_buffer();
    let n = read_full(input, &mut tape)?;
    let mut out = [0u8; MAX_TEXT];
    let end = print_tape(&tape[..n], &mut out);
    output.write_all(&out[..end])
}
