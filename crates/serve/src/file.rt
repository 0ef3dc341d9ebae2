// The fixed areas, and a file loaded through a buffer.
ghost use Rattle.std.specs.Prelude.{◌≡◌, length};

use notices::FileError;
use std::fs::File;
use std::rt::Files;
use terms::{Loaded, Loading};

// An area of zeros. Its length is stated for every count, so that no proof writes a list of that many out.
pub(crate) fn area<T: Copy + Default, const COUNT: usize>() -> [T; COUNT]
    ensures { COUNT ≡ length result }
{
    [T::default(); COUNT]
}

// Areas for `notices::LIMIT` values: eight bytes for each value, and the eight zeros; two words for every 128 values; and a
// position for each.
pub(crate) type ByteArea = [u8; 1_048_584];

pub(crate) type EntryArea = [u64; 2_048];

pub(crate) type PositionArea = [u32; 131_072];

// Opens the file of a name for reading. A name that is no UTF-8 cannot be asked for.
pub(crate) fn open<R: Files>(rt: &R, path: &[u8]) -> Result<R::File, FileError> {
    let name = std::str::from_utf8(path).map_err(|_| FileError::Other)?;
    Ok(File::open(rt, name)?)
}

// Takes the file piece by piece until it ends or nothing that follows can matter, and closes it. A proved loop has to end, and
// nothing says that a file does: the turns are those up to a number that no file uses up.
pub(crate) fn load<F: std::io::Read + Drop>(
    mut file: F,
    bytes: &mut [u8],
    entries: &mut [u64],
) -> Result<Loaded, FileError> {
    let mut loading = Loading::new(bytes);
    let mut buffer = io::large_buffer();
    for _ in 0..u64::MAX {
        if loading.settled() {
            break;
        }
        let n = file.read(&mut buffer)?;
        if n == 0 {
            break;
        }
        loading = loading.take(&buffer[..n], bytes, entries);
    }
    Ok(loading.end())
}
