// The buffers around a step. The room is AA before the call, so that what the call wrote shows; what is lent is copied, so that a refusal can be
// seen to leave it.
ghost use Rattle.std.specs.Prelude.{◌≡◌, ◌==◌, ◌≤◌, length, replicate, take, drop};
ghost use Rattle.lines.specs.Marks.{unchanged};

use crate::answer;
use crate::answer::Answer;
use crate::places::{Lent, Part, SECOND, Size, Sizes, Step, THIRD};

pub const STILL: usize = 786432;

const LENT: usize = 524288;

pub const ROOM: usize = 262144;

// What a call answered, and how many bytes it took and gave.
#[derive(Clone, Copy)]
pub struct Moved {
    pub answer: Answer,
    pub taken: usize,
    pub given: usize,
}

// What is kept from record to record, beside the two ends.
#[derive(Drop)]
pub struct Buffers {
    // what no step changes: the payload, the table and a copy of what was lent
    pub still: [u8; STILL],
    // what a step may change: the image and the client's slice
    pub lent: [u8; LENT],
    pub room: [u8; ROOM],
    pub sizes: Sizes,
}

// Makes every byte AA.
pub fn fill(room: &mut [u8])
    ensures { room.new ≡ replicate (length room.old) 170 }
{
    room.fill(0xAA);
}

// Whether every byte is AA.
pub fn unchanged(room: &[u8]) -> bool
    ensures { result ≡ unchanged room.now }
{
    room.iter().all(|&b| b == 0xAA)
}

// Fills the front of a room anew.
pub fn clean(n: Size, room: &mut [u8; ROOM]) {
    fill(&mut room[..n.bytes]);
}

// The line of a call that was lent the first n bytes of this room. `kept`: what else had to stay as it was did.
pub fn show(m: Moved, kept: bool, n: Size, room: &[u8; ROOM])
    requires { m.given ≤ n.bytes }
{
    let changed = !unchanged(&room[m.given..n.bytes]) || !kept;
    answer::line(m.answer, m.taken, &room[..m.given], changed);
}

impl Buffers {
    pub fn new() -> Buffers {
        Buffers {
            still: [0u8; STILL],
            lent: [0u8; LENT],
            room: [0u8; ROOM],
            sizes: Sizes::new(),
        }
    }

    // The part of what is lent.
    pub fn lent(&self, p: Part) -> &[u8]
        ensures { result.now ≡ take p.size.bytes (drop p.at self.now.lent) }
    {
        &self.lent[p.at..p.at + p.size.bytes]
    }

    // Copies what is lent, and fills the room: before a step.
    pub fn prepare(&mut self, p: Part, n: Size) {
        let Buffers {
            still,
            lent,
            room,
            ..
        } = self;
        still[THIRD..THIRD + p.size.bytes].copy_from_slice(&lent[p.at..p.at + p.size.bytes]);
        clean(n, room);
    }

    // Whether what is lent is as it was.
    fn as_copied(&self, p: Part) -> bool {
        self.lent(p) == &self.still[THIRD..THIRD + p.size.bytes]
    }

    // The line of a step on this part, with the first n bytes of the room. What is lent has to be as it was where the step was refused.
    pub fn show_step(&self, m: Moved, p: Part, n: Size)
        requires { m.given ≤ n.bytes }
    {
        let kept = !m.answer.is_refusal() || self.as_copied(p);
        show(m, kept, n, &self.room);
    }
}

// An end that a script drives: a server or a client.
pub trait Driven {
    // What its step may change.
    fn lent(&self) -> Lent;

    // The library's step. A client has no table.
    fn step(&mut self, input: &[u8], room: &mut [u8], table: &[u8], lent: &mut [u8]) -> Moved
        ensures { result.given ≤ length room.old };
}

// The step, with each slice that it is lent.
fn stepped<E: Driven>(
    end: &mut E,
    k: Step,
    sizes: Sizes,
    still: &[u8; STILL],
    lent: &mut [u8; LENT],
    room: &mut [u8; ROOM],
) -> Moved
    ensures { result.given ≤ k.room.bytes }
{
    let p = sizes.part(end.lent());
    end.step(
        &still[4..k.end.bytes],
        &mut room[..k.room.bytes],
        &still[SECOND..SECOND + sizes.table.bytes],
        &mut lent[p.at..p.at + p.size.bytes],
    )
}

// A step, with the payload's input and the front of the room, and its line.
pub fn drive<E: Driven>(end: &mut E, k: Step, buffers: &mut Buffers) {
    let p = buffers.sizes.part(end.lent());
    buffers.prepare(p, k.room);
    let Buffers {
        still,
        lent,
        room,
        sizes,
    } = buffers;
    let m = stepped(end, k, *sizes, still, lent, room);
    buffers.show_step(m, p, k.room);
}
