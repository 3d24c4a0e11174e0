// A list, read from its file.
ghost use Rattle.std.specs.Io.{ReadsAtMost};

use reading::read_full;
use std::rt::Files;
use std::{fs, io};

// What `read_list` does where the path is text, as every path that std opens is.
fn read_named(rt: &(impl Files + Eprint), path: &str, space: &mut [u8]) -> io::Result<usize>
    ensures { ReadsAtMost result space.new }
{
    match fs::open(rt, path) {
        Ok(mut list) => read_full(&mut list, space),
        Err(reason) => {
            eprintln!(rt; "{path}: {reason}")?;
            Ok(0)
        }
    }
}

// Reads a whole list: how many bytes it has. The path is bytes, since a `&str` would ask more of the caller. Where it cannot be opened the reason goes to
// standard error, and there are none. An error is that of a read, or of that writing.
pub fn read_list(rt: &(impl Files + Eprint), path: &[u8], space: &mut [u8]) -> io::Result<usize>
    ensures { ReadsAtMost result space.new }
{
    match str::from_utf8(path) {
        Ok(text) => read_named(rt, text, space),
        Err(reason) => {
            eprintln!(rt; "a path: {reason}")?;
            Ok(0)
        }
    }
}

// The same, and the list's name is printed.
pub fn named_list(
    rt: &(impl Files + Print + Eprint),
    path: &[u8],
    space: &mut [u8],
) -> io::Result<usize>
    ensures { ReadsAtMost result space.new }
{
    let n = read_list(rt, path, space)?;
    if 0 < n {
        rt.write_all(path)?;
        rt.write_all(b"\n")?;
    }
    Ok(n)
}
