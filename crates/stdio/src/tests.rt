use super::*;
use std::io::ErrorKind;

// A reader that gives one byte at a time, and then fails.
#[derive(Drop)]
struct Failing {
    left: u8,
}

impl Read for Failing {
    fn read(&mut self, buf: &mut [u8]) -> io::Result<usize> {
        if self.left == 0 || buf.is_empty() {
            return Err(io::Error::from(ErrorKind::WouldBlock));
        }
        buf[0] = self.left;
        self.left -= 1;
        Ok(1)
    }
}

// A writer that takes one byte at a time, and then fails.
#[derive(Drop)]
struct Full {
    room: u8,
}

impl Write for Full {
    fn write(&mut self, buf: &[u8]) -> io::Result<usize> {
        if self.room == 0 || buf.is_empty() {
            return Err(io::Error::from(ErrorKind::StorageFull));
        }
        self.room -= 1;
        Ok(1)
    }

    fn flush(&mut self) -> io::Result<()> {
        Ok(())
    }
}

#[test]
fn reads_up_to_a_failure(rt: HostRuntime) {
    let mut buf = [0u8; 5];
    let read = read_to_end(&mut Failing { left: 3 }, &mut buf);
    assert_eq!(rt; read, Err(ReadFailed { count: 3 }));
    assert_eq!(rt; buf, [3, 2, 1, 0, 0]);
    let again = read_to_end(&mut Failing { left: 9 }, &mut buf);
    assert_eq!(rt; again, Ok(5));
    assert_eq!(rt; buf, [9, 8, 7, 6, 5]);
}

#[test]
fn reads_to_the_end(rt: HostRuntime) {
    let mut buf = [0u8; 5];
    let mut input: &[u8] = b"abc";
    let read = read_to_end(&mut input, &mut buf);
    assert_eq!(rt; read, Ok(3));
    assert_eq!(rt; buf, *b"abc\0\0");
}

#[test]
fn says_whether_all_was_written(rt: HostRuntime) {
    assert!(rt; write_whole(&mut Full { room: 3 }, b"abc"));
    assert!(rt; !write_whole(&mut Full { room: 2 }, b"abc"));
}
