// What a request is owed.
ghost use Rattle.std.specs.Prelude.{◌≡◌};
ghost use Rattle.wire.specs.Table.{read_only};
ghost use Rattle.server.specs.Request.{request_of, past, owed_read, owed_write, owed};

use crate::ending::Ending;
use machine::tests::within;
use wire::table::Export;
use wire::{consts, fields};

#[derive(Clone, Copy)]
pub struct Request {
    pub typ: u16,
    pub handle: u64,
    pub offset: u64,
    pub len: u32,
}

#[derive(Clone, Copy)]
pub enum Answer {
    Silence,
    // a reply with this error, as it stands on the wire: 0 for none
    Reply(u32),
    // a reply with error 0, and the bytes asked for
    Data,
    // the payload is taken and stored, then a reply with error 0
    Store,
    // the payload is taken and dropped, then a reply with this error
    Swallow(u32),
    // the session ends
    End(Ending),
}

// The fields of a request's 28 bytes.
impl From<&[u8; 28]> for Request {
    ghost from_gives = { λ head r. r ≡ request_of head.now };

    fn from(head: &[u8; 28]) -> Request {
        Request {
            typ: fields::read(head, 6),
            handle: fields::read(head, 8),
            offset: fields::read(head, 16),
            len: fields::read(head, 24),
        }
    }
}

pub fn read_only(e: Export) -> bool
    ensures { result ≡ read_only e.flags }
{
    e.flags % 2 == 1
}

impl Request {
    // Whether it passes the window's end, as whole numbers.
    fn past(self, e: Export) -> bool
        ensures { result ≡ past e self }
    {
        !within(self.offset as usize, self.len as usize, e.size as usize)
    }

    fn owed_read(self, e: Export) -> Answer
        ensures { result ≡ owed_read e self }
    {
        if self.len == 0 {
            Answer::Silence
        } else if self.past(e) {
            Answer::Reply(consts::NBD_EINVAL)
        } else {
            Answer::Data
        }
    }

    fn owed_write(self, e: Export) -> Answer
        ensures { result ≡ owed_write e self }
    {
        if read_only(e) {
            Answer::Swallow(consts::NBD_EPERM)
        } else if self.len == 0 {
            Answer::Reply(0)
        } else if self.past(e) {
            Answer::Swallow(consts::NBD_ENOSPC)
        } else {
            Answer::Store
        }
    }

    #[tactic(auto, unfolding(crate::specs::Request::owed))]
    pub fn owed(self, e: Export) -> Answer
        ensures { result ≡ owed e self }
    {
        match self.typ {
            consts::NBD_CMD_READ => self.owed_read(e),
            consts::NBD_CMD_WRITE => self.owed_write(e),
            consts::NBD_CMD_DISC => Answer::End(Ending::Disconnected),
            consts::NBD_CMD_FLUSH => Answer::Reply(0),
            consts::NBD_CMD_TRIM | consts::NBD_CMD_WRITE_ZEROES => Answer::Reply(
                consts::NBD_ENOSYS,
            ),
            _ => Answer::End(Ending::UnknownRequest),
        }
    }
}
