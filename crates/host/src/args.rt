// The program's arguments.
ghost use Rattle.std.specs.Io.{ReadsAtMost};

use std::env::{Env, FillError};
use std::io::Error;

// What the system calls an argument that is missing, and one that is too long.
const EINVAL: i32 = 22;

const ENAMETOOLONG: i32 = 36;

// How many arguments there are, the program's own name among them.
pub fn count(rt: &impl Env) -> usize {
    let mut word = io::buffer();
    for i in 0..usize::MAX {
        if matches!(rt.arg(i, &mut word), Err(FillError::NotPresent)) {
            return i;
        }
    }
    usize::MAX
}

// Puts an argument at the start of the buffer, and answers its length. Into an array: a `String` could fail for want of memory.
pub fn get(rt: &impl Env, i: usize, buf: &mut [u8]) -> std::io::Result<usize>
    ensures { ReadsAtMost result buf.new }
{
    rt.arg(i, buf).map_err(|e| {
        Error::from_raw_os_error(match e {
            FillError::NotPresent => EINVAL,
            FillError::TooLong => ENAMETOOLONG,
        })
    })
}
