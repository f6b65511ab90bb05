// Takes and gives apart, by the library's step without room and without input, so that what was stored is known before a reply goes out.
ghost use Rattle.std.specs.Prelude.{◌≡◌};
ghost use Rattle.server.specs.View.{view};
ghost use Rattle.serve.specs.Stepping.{offered, LiesIn, changed, Takes, Gives};

use server::Stepped;
use server::state::{Phase, Server, Transmission};

// A part of the image: so many bytes from a place on.
#[derive(Clone, Copy)]
pub struct Part {
    pub from: usize,
    pub len: usize,
}

// A step, and the part of the image that it may have changed.
#[derive(Clone, Copy)]
pub struct Taken {
    pub step: Stepped,
    pub part: Part,
}

// How many of n bytes a step is offered: none behind a request's header, nor behind a payload that is stored.
fn offered(s: Server, n: usize) -> usize
    ensures { result ≡ offered (view s) n }
{
    match s.phase {
        Phase::Serving(_, Transmission::Header { have }) => 28usize.saturating_sub(have).min(n),
        Phase::Serving(_, Transmission::Storing(payload)) => payload.left.min(n),
        _ => n,
    }
}

// The part that a step from s stored, if it took so many bytes, with an image of so many.
fn changed(s: Server, taken: usize, image: usize) -> Part
    requires { LiesIn image (changed (view s) taken) }
    ensures { result ≡ changed (view s) taken }
{
    match s.phase {
        Phase::Serving(e, Transmission::Storing(payload)) if 0 < taken => Part {
            from: e.start as usize + payload.off,
            len: taken,
        },
        _ => Part { from: 0, len: 0 },
    }
}

// A step without room.
pub fn take(s: Server, table: &[u8], image: &mut [u8], input: &[u8]) -> Taken
    ensures { Takes s table.now image.old input.now result image.new }
{
    let n = offered(s, input.len());
    let mut room = [0u8; 0];
    let step = s.step(&input[..n], &mut room, table, image);
    let part = changed(s, step.taken, image.len());
    Taken { step, part }
}

// A step without input.
pub fn give(s: Server, table: &[u8], image: &mut [u8], room: &mut [u8]) -> Stepped
    ensures { Gives s table.now image.old room.old result image.new room.new }
{
    s.step(b"", room, table, image)
}
