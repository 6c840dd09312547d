// What is printed: bytes collected in a buffer that the caller lends, and written on where there is no more room in it.
ghost use Rattle.std.specs.Prelude.{◌≤◌, length};

use std::io;
use std::io::Write;

// A writer with a buffer in front of it. Nothing is tried once more: what a write that failed did not take is gone.
#[derive(Drop)]
pub(crate) struct Buffered<'a, O: Write> {
    to: &'a mut O,
    buffer: &'a mut [u8],
    waiting: usize,
    ghost within: { waiting ≤ length buffer.now },
}

impl<'a, O: Write> Buffered<'a, O> {
    // Nothing waits yet.
    pub(crate) fn new(to: &'a mut O, buffer: &'a mut [u8]) -> Buffered<'a, O> {
        Buffered {
            to,
            buffer,
            waiting: 0,
        }
    }
}

impl<O: Write> Write for Buffered<'_, O> {
    fn write(&mut self, bytes: &[u8]) -> io::Result<usize> {
        if self.buffer.len() - self.waiting < bytes.len() {
            self.flush()?;
        }
        if self.buffer.len() - self.waiting < bytes.len() {
            self.to.write_all(bytes)?;
            return Ok(bytes.len());
        }
        let end = self.waiting + bytes.len();
        self.buffer[self.waiting..end].copy_from_slice(bytes);
        self.waiting = end;
        Ok(bytes.len())
    }

    fn flush(&mut self) -> io::Result<()> {
        let waiting = self.waiting;
        self.waiting = 0;
        self.to.write_all(&self.buffer[..waiting])
    }
}
