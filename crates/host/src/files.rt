// Whole files, and parts of them.
ghost use Rattle.std.specs.Prelude.{◌+◌, ◌≤◌, length};
ghost use Rattle.std.specs.Io.{ReadsAtMost};

use std::fs::{File, OpenOptions};
use std::io::{Error, ErrorKind, Read, Result};
use std::os::unix::fs::FileExt;
use std::rt::Files;

// Linux's numbers for a path that has a NUL, for one that is too long, and for bytes that are no text.
const EINVAL: i32 = 22;

const ENAMETOOLONG: i32 = 36;

const EILSEQ: i32 = 84;

// The longest path, and a byte more.
const PATH: usize = 4096;

// ---- files by their names

// The file's name as std takes it: as text, and so only where it is UTF-8.
fn path(name: &[u8]) -> Result<&str> {
    if name.len() >= PATH {
        return Err(Error::from_raw_os_error(ENAMETOOLONG));
    }
    if name.contains(&0) {
        return Err(Error::from_raw_os_error(EINVAL));
    }
    std::str::from_utf8(name).map_err(|_| Error::from_raw_os_error(EILSEQ))
}

// Opens the file for reading.
pub fn open_read(rt: &impl Files<File = File>, name: &[u8]) -> Result<File> {
    File::open(rt, path(name)?)
}

// Opens the file for reading and writing, and leaves its bytes as they are.
pub fn open_update(rt: &impl Files<File = File>, name: &[u8]) -> Result<File> {
    OpenOptions::new()
        .read(true)
        .write(true)
        .open(rt, path(name)?)
}

// Opens the file for writing, and empties it, or creates it where it is missing.
pub fn open_overwrite(rt: &impl Files<File = File>, name: &[u8]) -> Result<File> {
    File::create(rt, path(name)?)
}

// ---- their bytes

// Reads to the front of the buffer until the file ends or the buffer is full. A buffer of one byte more than is wanted shows a file that is too long.
pub fn fill(file: &mut impl Read, buf: &mut [u8]) -> Result<usize>
    ensures { ReadsAtMost result buf.new }
{
    let mut done = 0;
    // a turn goes as far as one read does
    while done < buf.len() {
        let n = file.read(&mut buf[done..])?;
        if n == 0 {
            break;
        }
        done += n;
    }
    Ok(done)
}

// Writes the bytes at this place of the file, and fails if any of them is not there. (std's `write_all_at` tries again after an interrupted write.)
pub fn write(file: &File, bytes: &[u8], place: usize) -> Result<()>
    requires { place + length bytes.now ≤ 9223372036854775807 }
{
    let mut done = 0;
    // a turn goes as far as one write does
    while done < bytes.len() {
        let n = file.write_at(&bytes[done..], (place + done) as u64)?;
        if n == 0 {
            return Err(Error::from(ErrorKind::WriteZero));
        }
        done += n;
    }
    Ok(())
}
