// What is asked of the client.
use client::state::SeekFrom;
use lines::places::Step;

// A call of the client's: a fresh client, a step, `q`, or one that moves no byte.
#[derive(Clone, Copy)]
pub enum Call {
    Fresh,
    Step(Step),
    Show,
    Make(Made),
}

// A call that moves no byte, with the client's slice.
#[derive(Clone, Copy)]
pub enum Made {
    Handshake,
    End,
    Read,
    Write,
    Flush,
    Seek(SeekFrom),
    Trim(u64),
    Resize(u64),
}
