// The old style: all that such a server sends before requests.
ghost use Rattle.std.specs.Prelude.{◌≡◌};
ghost use Rattle.wire.specs.Layouts.{oldstyle_header};
ghost use Rattle.server.specs.Contract.{Heads};

use wire::{consts, fields};

// 13: the room has fewer than the header's 152 bytes.
#[derive(Clone, Copy, Debug, PartialEq, Eq)]
pub struct NoRoom;

#[tactic(auto, unfolding(wire::specs::Fields::be, wire::specs::Layouts::oldstyle_header))]
fn header(size: u64, flags: u32) -> [u8; 152]
    ensures { result ≡ oldstyle_header size flags }
{
    let mut bytes = [0u8; 152];
    bytes[..8].copy_from_slice(&consts::NBDMAGIC);
    bytes[8..16].copy_from_slice(&consts::OLDSTYLE);
    fields::write(&mut bytes, 16, size);
    fields::write(&mut bytes, 24, flags);
    bytes
}

// Writes the header over the room's first 152 bytes.
pub fn oldstyle_header(room: &mut [u8], size: u64, flags: u32) -> Result<(), NoRoom>
    ensures { Heads room.old size flags result room.new }
{
    if room.len() < 152 {
        return Err(NoRoom);
    }
    let bytes = header(size, flags);
    room[..152].copy_from_slice(&bytes);
    Ok(())
}
