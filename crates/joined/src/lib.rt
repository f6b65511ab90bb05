// The joined system: condition 3 as theorems about what a host calls, and a host's moves on real slices.
#![tactic(auto)]

pub mod wires;

ghost use Rattle.joined.specs.Wired.{ClientMoves, ServerMoves};

use client::state::Client;
use server::state::Server;

// How many bytes stand on the wires, and how much of them a move may use: up to `piece` bytes in, up to `room` bytes out.
#[derive(Clone, Copy)]
pub struct Offer {
    pub ups: usize,
    pub downs: usize,
    pub piece: usize,
    pub room: usize,
}

// What an end's step did, and how many bytes stand on the wires after it.
#[derive(Clone, Copy)]
pub struct Moved<S> {
    pub step: S,
    pub ups: usize,
    pub downs: usize,
}

// The two moves stay two functions: what each lends beside the wires and what it promises (`ClientMoves`, `ServerMoves`) are its own end's.

// Steps the client on a piece of the wire down, with some of the space on the wire up.
pub fn client_move(
    c: Client,
    o: Offer,
    lent: &mut [u8],
    up: &mut [u8],
    down: &mut [u8],
) -> Moved<client::Stepped>
    ensures { ClientMoves c lent.old up.old o.ups down.old o.downs o.piece o.room
        result lent.new up.new down.new }
{
    let there = o.downs.min(down.len());
    let n = o.piece.min(there);
    let from = o.ups.min(up.len());
    let to = from + o.room.min(up.len() - from);
    let step = c.step(&down[..n], &mut up[from..to], lent);
    wires::take_off(down, there, step.taken);
    let ups = from + step.given;
    let downs = there - step.taken;
    Moved { step, ups, downs }
}

// Steps the server on a piece of the wire up, with some of the space on the wire down.
pub fn server_move(
    s: Server,
    o: Offer,
    table: &[u8],
    image: &mut [u8],
    up: &mut [u8],
    down: &mut [u8],
) -> Moved<server::Stepped>
    ensures { ServerMoves s table.now image.old up.old o.ups down.old o.downs o.piece o.room
        result image.new up.new down.new }
{
    let there = o.ups.min(up.len());
    let n = o.piece.min(there);
    let from = o.downs.min(down.len());
    let to = from + o.room.min(down.len() - from);
    let step = s.step(&up[..n], &mut down[from..to], table, image);
    wires::take_off(up, there, step.taken);
    let ups = there - step.taken;
    let downs = from + step.given;
    Moved { step, ups, downs }
}
