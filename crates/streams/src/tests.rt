use super::*;
use std::io::Error;
use std::test::Fail;

// Gives two bytes at most at once.
#[derive(Drop)]
struct Slow<'a>(&'a [u8]);

impl<'a> Read for Slow<'a> {
    fn read(&mut self, buf: &mut [u8]) -> io::Result<usize> {
        if buf.len() < 2 {
            return self.0.read(buf);
        }
        self.0.read(&mut buf[..2])
    }
}

// What a reader does at its next reads: a signal interrupts it, it gives a byte, and then it fails.
#[derive(Clone, Copy)]
enum Turn {
    Interrupted,
    Byte,
    Broken,
}

#[derive(Drop)]
struct Failing(Turn);

impl Read for Failing {
    fn read(&mut self, buf: &mut [u8]) -> io::Result<usize> {
        match self.0 {
            Turn::Interrupted => {
                self.0 = Turn::Byte;
                Err(Error::from(ErrorKind::Interrupted))
            }
            Turn::Byte => {
                self.0 = Turn::Broken;
                let mut one: &[u8] = b"a";
                one.read(buf)
            }
            Turn::Broken => Err(Error::from(ErrorKind::PermissionDenied)),
        }
    }
}

#[test]
fn ends_with_the_input(rt: HostRuntime) -> Result<(), Fail> {
    let mut buf = [0u8; 4];
    let n = read_full(&mut Slow(b"abc"), &mut buf)?;
    assert_eq!(rt; n, 3);
    assert_eq!(rt; buf, *b"abc\0");
    Ok(())
}

#[test]
fn leaves_what_has_no_room(rt: HostRuntime) -> Result<(), Fail> {
    let mut input = Slow(b"abcde");
    let mut buf = [0u8; 3];
    let n = read_full(&mut input, &mut buf)?;
    assert_eq!(rt; n, 3);
    assert_eq!(rt; buf, *b"abc");
    let m = read_full(&mut input, &mut buf)?;
    assert_eq!(rt; m, 2);
    assert_eq!(rt; buf, *b"dec");
    Ok(())
}

#[test]
fn goes_on_after_a_signal(rt: HostRuntime) -> Result<(), Fail> {
    let mut buf = [0u8; 1];
    let n = read_full(&mut Failing(Turn::Interrupted), &mut buf)?;
    assert_eq!(rt; n, 1);
    assert_eq!(rt; buf, *b"a");
    Ok(())
}

#[test]
fn fails_as_a_read_fails(rt: HostRuntime) {
    let mut buf = [0u8; 2];
    let came = read_full(&mut Failing(Turn::Interrupted), &mut buf);
    assert!(rt; came.is_err());
}
