// A writer for a descriptor of which only the number is known: the standard library has none.
ghost use Rattle.std.specs.Prelude.{◌≡◌};

use std::io::{ErrorKind, Result, Write};
use std::os::fd::{AsRawFd, RawFd};

#[derive(Clone, Copy, Debug, PartialEq, Eq)]
pub struct Descriptor(pub i32);

// A write takes all of the bytes, or fails.
impl Write for Descriptor {
    fn write(&mut self, bytes: &[u8]) -> Result<usize> {
        if io::write_all(self.0, bytes) {
            Ok(bytes.len())
        } else {
            Err(ErrorKind::Other.into())
        }
    }

    fn flush(&mut self) -> Result<()> {
        Ok(())
    }
}

impl AsRawFd for Descriptor {
    fn as_raw_fd(&self) -> RawFd
        ensures { result ≡ self.now.0 }
    {
        self.0
    }
}
