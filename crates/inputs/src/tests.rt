// Readers that no file is: one that fails in the middle, and one that gives a byte at a time.
use crate::{fill, read_bundle};
use std::io::{self, ErrorKind, Read};
use std::test::Fail;

const BYTES: &[u8] = b"kind a b c\nrule left right first second\n";

// Gives at most `most` bytes a read, every second read being interrupted first, and fails behind its last byte where
// `fails`.
#[derive(Drop)]
struct Slow<'a> {
    left: &'a [u8],
    most: usize,
    fails: bool,
    interrupted: bool,
}

impl Read for Slow<'_> {
    fn read(&mut self, buf: &mut [u8]) -> io::Result<usize> {
        self.interrupted = !self.interrupted;
        if self.interrupted {
            return Err(io::Error::from(ErrorKind::Interrupted));
        }
        let n = self.most.min(buf.len()).min(self.left.len());
        if n == 0 && self.fails {
            return Err(io::Error::from(ErrorKind::Other));
        }
        let left = self.left;
        buf[..n].copy_from_slice(&left[..n]);
        self.left = &left[n..];
        Ok(n)
    }
}

fn make_slow(most: usize, fails: bool) -> Slow<'static> {
    make_slow_of(BYTES, most, fails)
}

fn make_slow_of(left: &'static [u8], most: usize, fails: bool) -> Slow<'static> {
    Slow {
        left,
        most,
        fails,
        interrupted: false,
    }
}

#[test]
fn a_byte_at_a_time(rt: HostRuntime) -> Result<(), Fail> {
    let bytes = read_bundle(rt.alloc(), make_slow(1, false))?;
    assert_eq!(rt; bytes.as_slice(), BYTES);
    let bytes = read_bundle(rt.alloc(), make_slow(100, false))?;
    assert_eq!(rt; bytes.as_slice(), BYTES);
    Ok(())
}

#[test]
fn a_read_that_fails(rt: HostRuntime) -> Result<(), Fail> {
    assert!(rt; read_bundle(rt.alloc(), make_slow(7, true)).is_err());
    Ok(())
}

#[test]
fn a_buffer_that_is_long_enough(rt: HostRuntime) -> Result<(), Fail> {
    for most in [1, 7, 100] {
        let mut buffer = [0; BYTES.len()];
        assert_eq!(rt; fill(make_slow(most, false), &mut buffer)?, BYTES.len());
        assert_eq!(rt; &buffer[..], BYTES);
        let mut longer = [0; BYTES.len() + 9];
        let length = fill(make_slow(most, false), &mut longer)?;
        assert_eq!(rt; &longer[..length], BYTES);
    }
    Ok(())
}

#[test]
fn a_buffer_that_is_too_short(rt: HostRuntime) -> Result<(), Fail> {
    for most in [1, 7, 100] {
        let mut buffer = [0; 10];
        assert_eq!(rt; fill(make_slow(most, false), &mut buffer)?, 10);
        assert_eq!(rt; &buffer[..], &BYTES[..10]);
    }
    Ok(())
}

#[test]
fn a_buffer_and_no_bytes(rt: HostRuntime) -> Result<(), Fail> {
    assert_eq!(rt; fill(make_slow_of(b"", 7, false), &mut [0; 10])?, 0);
    assert_eq!(rt; fill(make_slow(7, false), &mut [])?, 0);
    Ok(())
}

// Where the buffer is full first, the read that would fail isn't made.
#[test]
fn a_buffer_and_a_read_that_fails(rt: HostRuntime) -> Result<(), Fail> {
    let mut longer = [0; BYTES.len() + 1];
    let read = fill(make_slow(7, true), &mut longer);
    assert!(rt; read.is_err_and(|e| e.kind() == ErrorKind::Other));
    let mut buffer = [0; BYTES.len()];
    assert_eq!(rt; fill(make_slow(7, true), &mut buffer)?, BYTES.len());
    Ok(())
}
