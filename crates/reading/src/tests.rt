// What no clause says: that a call succeeds, also over several reads, and that an error in the midst of the input is told.
use super::read_full;
use std::io;
use std::io::Read;
use std::test::Fail;

// Gives so many bytes, one at a time, and then fails.
#[derive(Drop)]
struct Failing {
    left: u8,
}

impl Read for Failing {
    fn read(&mut self, buf: &mut [u8]) -> io::Result<usize> {
        if buf.is_empty() {
            return Ok(0);
        }
        if self.left == 0 {
            return Err(io::Error::from(io::ErrorKind::TimedOut));
        }
        buf[0] = self.left;
        self.left -= 1;
        Ok(1)
    }
}

#[test]
fn reads_on_until_the_end(rt: HostRuntime) -> Result<(), Fail> {
    let first: &[u8] = b"abc";
    let second: &[u8] = b"defg";
    let mut space = [b'-'; 9];
    let n = read_full(&mut first.chain(second), &mut space)?;
    assert_eq!(rt; n, 7);
    assert!(rt; space == *b"abcdefg--");
    Ok(())
}

#[test]
fn stops_where_the_slice_is_full(rt: HostRuntime) -> Result<(), Fail> {
    let mut space = [0u8; 3];
    let n = read_full(&mut Failing { left: 4 }, &mut space)?;
    assert_eq!(rt; n, 3);
    assert!(rt; space == [4, 3, 2]);
    Ok(())
}

#[test]
fn tells_an_error_after_some_bytes(rt: HostRuntime) {
    let mut space = [0u8; 3];
    let told = read_full(&mut Failing { left: 2 }, &mut space);
    assert!(rt; matches!(told, Err(e) if e.kind() == io::ErrorKind::TimedOut));
}
