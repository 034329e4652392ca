ghost use Rattle.std.specs.Prelude.{◌≡◌};
ghost use Rattle.updater_text.specs.Counts.{CountRose};

use crate::{Failed, Sink};
use std::io::Write;

/// A sink over a writer of std. It tells what the writer tells.
#[derive(Drop)]
pub struct WriterSink<W: Write + Drop> {
    writer: W,
    faults: u64,
}

impl<W: Write + Drop> WriterSink<W> {
    /// A sink over the writer, with no fault yet. It takes no memory.
    pub fn new(writer: W) -> WriterSink<W>
        ensures { result ≡ record { writer = writer; faults = 0 } }
    {
        WriterSink { writer, faults: 0 }
    }

    // Counts a fault.
    fn fail(&mut self) -> Failed
        ensures writer { self.new.writer ≡ self.old.writer }
        ensures faults { CountRose self.old.faults self.new.faults }
    {
        self.faults = self.faults.saturating_add(1);
        Failed
    }
}

impl<W: Write + Drop> Sink for WriterSink<W> {
    ghost shown = { λ s. record { told = W.contents s.writer; faults = s.faults } };

    /// An error of the writer is a fault, and so is a write that takes nothing of bytes that are left.
    fn put(&mut self, bytes: &[u8]) -> Result<(), Failed> {
        let mut done = 0;
        while done < bytes.len() {
            match self.writer.write(&bytes[done..]) {
                Ok(count) => {
                    if count == 0 {
                        return Err(self.fail());
                    }
                    done += count;
                }
                Err(_) => return Err(self.fail()),
            }
        }
        Ok(())
    }
}
