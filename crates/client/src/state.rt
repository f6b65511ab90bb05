// Where a session stands. The phases are named as in specs/Session.antt; docs/STATES.md has their ranges. A host may hand in any values, which a call
// then refuses (ranges.rt): so no type here keeps a range, and the number of an end or of a refusal is a plain number.

// What the export's flags say.
#[derive(Clone, Copy)]
pub struct Fields {
    pub readonly: bool,
    pub resizeable: bool,
    pub rotational: bool,
    pub send_trim: bool,
    pub send_flush: bool,
}

// What a client knows of the device that it is connected to.
#[derive(Clone, Copy)]
pub struct Device {
    pub size: u64,
    pub position: u64,
    pub fields: Fields,
}

// An open call. `n`: how many bytes it moves. `len`: the whole buffer's length.
#[derive(Clone, Copy)]
pub enum Call {
    Read { n: u32, len: usize },
    Write { n: u32, len: usize },
    Flush,
    Trim { n: u32 },
    // to the new size
    Resize { size: u64 },
}

// Where a seek starts, and how far it goes.
#[derive(Clone, Copy)]
pub enum SeekFrom {
    Start(u64),
    Current(i64),
    End(i64),
}

// What a success gives.
#[derive(Clone, Copy)]
pub enum Value {
    // a handshake: the size and the five fields
    Opened(u64, Fields),
    // a read or a write: so many bytes
    Bytes(u32),
    // a seek: the new position
    Position(u64),
    // a flush, a trim or a resize; hosts know it by this name (docs/API.md)
    Nothing,
}

#[derive(Clone, Copy)]
pub enum Outcome {
    // a call or the handshake is open, or there is nothing to do
    Open,
    Succeeded(Value),
    // 01's number 47, with the error of the reply
    Failed(u32),
    // with 01's number, now or before
    Ended(u8),
    // with 01's number; nothing has changed
    Refused(u8),
}

// The 124 bytes behind the size and the flags; clean: all were 0 so far.
#[derive(Clone, Copy)]
pub struct Filler {
    pub size: u64,
    pub flags: u16,
    pub clean: bool,
    pub left: usize,
}

// `left`: how many bytes are still to be taken or given. `have`: so many bytes are in `head`.
#[derive(Clone, Copy)]
pub enum Handshake {
    // the first 8 bytes, and the next 8
    Magic { have: usize },
    Style { have: usize },
    // the flags of a new-style server, which are never judged
    Newstyle { left: usize },
    // the 20 bytes that are sent before the name, and the name
    Hello { left: usize },
    Naming { left: usize },
    // the size and the flags, in the old style or in the new
    SizeAndFlags { old: bool, have: usize },
    Filler(Filler),
}

#[derive(Clone, Copy)]
pub enum Progress {
    // a request is owed
    Asking { left: usize },
    // a write's payload is owed
    Paying { left: usize },
    // a reply is awaited
    Hearing { have: usize },
    // a read's data is awaited
    Filling { left: usize },
}

#[derive(Clone, Copy)]
pub enum Phase {
    // no handshake yet
    Blank,
    // a handshake with a name of so many bytes
    Shaking(usize, Handshake),
    // no call is open
    Ready(Device),
    Calling(Device, Call, Progress),
    // only inside a step, at its end: a call or the handshake was just closed
    Closed(Outcome, Device),
    Over(u8),
}

// The bytes of `head` that the phase does not use are 0. They stand in an array, as the memory of a session is fixed: there is no heap.
#[derive(Clone, Copy)]
pub struct Client {
    pub phase: Phase,
    pub head: [u8; 16],
}
