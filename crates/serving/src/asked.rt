// What is asked of the server.
use lines::places::{Size, Step};

// A call of the server's: a fresh server, a step, the end of input.
#[derive(Clone, Copy)]
pub enum Serve {
    Fresh,
    Step(Step),
    End,
}

// `oldstyle_header`
#[derive(Clone, Copy)]
pub struct Head {
    pub room: Size,
    pub size: u64,
    pub flags: u32,
}
