// Whether what was written is kept. A write to a file can succeed before the file has it, as behind a network.
use std::fmt::InlineText;
use std::fs::{File, OpenFile};
use std::io::ErrorKind;
use std::os::fd::AsRawFd;
use std::rt::Files;

// The longest name of a descriptor: the folder's 14 letters, and the digits of a number of 32 bits.
const NAME: usize = 24;

// Whether a file that is written out to where it is kept says that something is missing there. A file for which the system
// has no such call is as it was written.
fn is_lost_there<F: OpenFile>(file: &F) -> bool {
    file.sync_all()
        .is_err_and(|why| why.kind() != ErrorKind::InvalidInput)
}

// The same of the file of a name, where there is one that may be opened. A pipe is never opened, which could wait.
fn is_lost_at<R: Files>(rt: &R, name: &str) -> bool {
    match std::fs::metadata(rt, name) {
        Ok(data) if data.is_file() => {
            File::open(rt, name).is_ok_and(|file| is_lost_there(&file))
        }
        _ => false,
    }
}

// Whether something of what was written to a descriptor is not kept, as far as it can be seen: the library closes no
// descriptor so that the error shows, so its file is opened once more, by the name that the system has for it.
pub(crate) fn is_lost<R: Files>(rt: &R, out: &impl AsRawFd) -> bool {
    let fd = out.as_raw_fd().unsigned_abs();
    let name = InlineText::<NAME>::of(format_args!("/proc/self/fd/{fd}"));
    is_lost_at(rt, name.as_str())
}
