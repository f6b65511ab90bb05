// The calls that are made, on an export of 32 bytes: four labels of 8.
ghost use Rattle.std.specs.Prelude.{◌≤◌};

use client::Called;
use client::state::{Client, SeekFrom};

// The longest buffer that is lent.
pub const LONGEST: usize = 40;

#[derive(Clone, Copy)]
pub enum Call {
    // with the export's name
    Handshake([u8; 6]),
    // into a buffer of so many bytes
    Read(usize),
    // of a label
    Write([u8; 8]),
    Seek(SeekFrom),
    Flush,
    Trim(u64),
}

pub fn calls() -> [Call; 16] {
    [
        Call::Handshake(*b"labels"),
        Call::Read(8),
        Call::Write(*b"WARFARIN"),
        Call::Seek(SeekFrom::Start(4)),
        Call::Read(16),
        Call::Seek(SeekFrom::End(-4)),
        Call::Write(*b"MORPHINE"),
        Call::Read(8),
        Call::Seek(SeekFrom::Current(1)),
        Call::Read(8),
        Call::Write(*b"CODEINE "),
        Call::Seek(SeekFrom::Current(-34)),
        Call::Seek(SeekFrom::Start(0)),
        Call::Trim(8),
        Call::Flush,
        Call::Read(40),
    ]
}

impl Call {
    // How many bytes are lent.
    pub fn lends(self) -> usize
        ensures { result ≤ 40 }
    {
        match self {
            Call::Handshake(_) => 6,
            Call::Read(n) => n.min(LONGEST),
            Call::Write(_) => 8,
            _ => 0,
        }
    }

    // What the buffer holds before the call: the name, a label to be written, or dots.
    pub fn fill(self, buffer: &mut [u8; LONGEST]) {
        buffer.fill(b'.');
        match self {
            Call::Handshake(name) => buffer[..6].copy_from_slice(&name),
            Call::Write(label) => buffer[..8].copy_from_slice(&label),
            _ => {}
        }
    }

    pub fn make(self, c: Client, buffer: &[u8]) -> Called {
        match self {
            Call::Handshake(_) => c.handshake(buffer),
            Call::Read(_) => c.read(buffer),
            Call::Write(_) => c.write(buffer),
            Call::Seek(from) => c.seek(from),
            Call::Flush => c.flush(),
            Call::Trim(n) => c.trim(n),
        }
    }
}
