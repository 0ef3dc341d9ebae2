// What is written waits on a page until the page is full, so that a long list takes few calls.
ghost use Rattle.std.specs.Prelude.{◌≡◌};

use std::{fmt, io};

// Where it goes, the bytes that wait, and how many of them do.
#[derive(Drop)]
pub(crate) struct Page<W, const SIZE: usize> {
    out: W,
    bytes: [u8; SIZE],
    used: usize,
}

impl<W: io::Write, const SIZE: usize> Page<W, SIZE> {
    pub(crate) fn new(out: W) -> Page<W, SIZE> {
        Page {
            out,
            bytes: [0; SIZE],
            used: 0,
        }
    }

    // Writes what waits, as at the end of what is put on the page.
    pub(crate) fn write_out(&mut self) -> fmt::Result
        ensures { self.new.used ≡ 0 }
    {
        let used = self.used;
        self.used = 0;
        let waiting = self.bytes.get(..used).ok_or(fmt::Error)?;
        self.out.write_all(waiting).map_err(|_| fmt::Error)
    }
}

// A text is put on the page whole. Where there is no room for it, what waits is written first.
impl<W: io::Write, const SIZE: usize> fmt::Write for Page<W, SIZE> {
    fn write_str(&mut self, text: &str) -> fmt::Result {
        let text = text.as_bytes();
        if text.len() > SIZE {
            return Err(fmt::Error);
        }
        if self.used > SIZE - text.len() {
            self.write_out()?;
        }
        let used = self.used;
        let end = used + text.len();
        let bytes = &mut self.bytes[..];
        bytes[used..end].copy_from_slice(text);
        self.used = end;
        Ok(())
    }
}
