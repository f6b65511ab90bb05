// Where a session stands. The phases are named as in specs/Session.antt; docs/STATES.md has their ranges. A host may hand in any values, which a call
// then refuses (ranges.rt): so no type here keeps a range, and errors and the number of an end are plain numbers.
use wire::table::Export;
use wire::utf8::Utf8;

// ---- the phases that hold more than two values, and a part of the window. `zeroes`: whether the reply to EXPORT_NAME ends in 124 zero bytes.
// `left`: how many bytes are still to be taken or given.

// A name: the exports that fit it so far, its text so far, its next place.
#[derive(Clone, Copy)]
pub struct Naming {
    pub zeroes: bool,
    pub fits: u32,
    pub text: Utf8,
    pub at: usize,
    pub left: usize,
}

// Another option's payload, of len bytes.
#[derive(Clone, Copy)]
pub struct Passing {
    pub zeroes: bool,
    pub option: u32,
    pub len: usize,
    pub left: usize,
}

// The reply that the option is not supported.
#[derive(Clone, Copy)]
pub struct Declining {
    pub zeroes: bool,
    pub option: u32,
    pub left: usize,
}

// The reply to EXPORT_NAME.
#[derive(Clone, Copy)]
pub struct Exporting {
    pub zeroes: bool,
    pub export: Export,
    pub left: usize,
}

// Payload for the window, from the place off on.
#[derive(Clone, Copy)]
pub struct Storing {
    pub handle: u64,
    pub off: usize,
    pub left: usize,
}

// Payload that is refused, and the error to reply.
#[derive(Clone, Copy)]
pub struct Dropping {
    pub error: u32,
    pub handle: u64,
    pub left: usize,
}

// A reply, and after it len bytes of the window from the place off on.
#[derive(Clone, Copy)]
pub struct Replying {
    pub error: u32,
    pub handle: u64,
    pub left: usize,
    pub off: usize,
    pub len: usize,
}

// Bytes of the window, from the place off on.
#[derive(Clone, Copy)]
pub struct Sending {
    pub off: usize,
    pub left: usize,
}

// ---- all phases

#[derive(Clone, Copy)]
pub enum Handshake {
    Greeting { left: usize },
    // so many bytes of the client's flags are in `head`
    ClientFlags { have: usize },
    // so many bytes of an option's magic, type and length are in `head`
    OptionHead { zeroes: bool, have: usize },
    Naming(Naming),
    Passing(Passing),
    Listing { zeroes: bool, left: usize },
    Declining(Declining),
    Aborting { left: usize },
    Exporting(Exporting),
}

#[derive(Clone, Copy)]
pub enum Transmission {
    // so many bytes of a request are in `head`
    Header {
        have: usize,
    },
    Storing(Storing),
    Dropping(Dropping),
    // the fields of a `Replying`, here and not as one struct: so a server has 104 bytes and not 112
    Replying {
        error: u32,
        handle: u64,
        left: usize,
        off: usize,
        len: usize,
    },
    Sending(Sending),
}

#[derive(Clone, Copy)]
pub enum Phase {
    Shaking(Handshake),
    Serving(Export, Transmission),
    Over(u8),
}

// The bytes of `head` that the phase does not use are 0. They stand in an array, as the memory of a session is fixed: there is no heap.
#[derive(Clone, Copy)]
pub struct Server {
    pub phase: Phase,
    pub head: [u8; 28],
}

// ---- what a call answers

#[derive(Clone, Copy)]
pub enum Outcome {
    GoingOn,
    // with 01's number, now or before
    Ended(u8),
    // with 01's number; nothing has changed
    Refused(u8),
}
