use std::io::{Error, ErrorKind, Result as IoResult, Write};
use std::test::Fail;
use updater_text::{Sink, WriterSink};

/// Takes one byte at a call, `room` bytes in all; then each call takes nothing, or is an error.
#[derive(Drop)]
struct Slow {
    room: usize,
    errs: bool,
}

impl Write for Slow {
    fn write(&mut self, buf: &[u8]) -> IoResult<usize> {
        if self.room == 0 {
            return if self.errs {
                Err(Error::from(ErrorKind::BrokenPipe))
            } else {
                Ok(0)
            };
        }
        self.room -= 1;
        Ok(buf.len().min(1))
    }

    fn flush(&mut self) -> IoResult<()> {
        Ok(())
    }
}

// Whether three bytes can be put on a writer with this room.
fn puts_three(room: usize, errs: bool) -> bool {
    WriterSink::new(Slow { room, errs }).put(b"abc").is_ok()
}

// A short write is tried again; only an error and a write that takes nothing are faults.
#[test]
fn tries_again_after_a_short_write(rt: HostRuntime) -> Result<(), Fail> {
    let whole = puts_three(3, false) && puts_three(3, true);
    let refused = !puts_three(2, false) && !puts_three(2, true) && !puts_three(0, true);
    assert!(rt; whole && refused);
    Ok(())
}
