// One end of a wire, as a host runs it: it takes input and gives output phase by phase, as far as both go. The step is written once, for every end.
ghost use Rattle.std.specs.Prelude.{◌≡◌, ◌≤◌, List, ℕ, length};
ghost use Rattle.machine.specs.Machine.{Turn, On, on};
ghost use Rattle.machine.specs.Inner.{Lasts};
ghost use Rattle.machine.specs.Pieces.{Absorbs, Emits, Turns, Steps};

// What was taken of the input, and where the end stands then.
#[derive(Clone, Copy)]
pub struct Took<S> {
    pub state: S,
    pub taken: usize,
}

// What was given into the room, and where the end stands then.
#[derive(Clone, Copy)]
pub struct Gave<S> {
    pub state: S,
    pub given: usize,
}

// Both.
#[derive(Clone, Copy)]
pub struct Moved<S> {
    pub state: S,
    pub taken: usize,
    pub given: usize,
}

// What a step answers: where the end stands then, what was taken and given, and how it went.
#[derive(Clone, Copy)]
pub struct Stepped<S, O> {
    pub state: S,
    pub taken: usize,
    pub given: usize,
    pub outcome: O,
}

// What a call answers that moves no byte.
#[derive(Clone, Copy)]
pub struct Answered<S, O> {
    pub state: S,
    pub outcome: O,
}

impl<S> Took<S> {
    // Of a phase that takes nothing.
    pub fn none(state: S) -> Took<S>
        ensures { result ≡ record { state = state; taken = 0 } }
    {
        Took { state, taken: 0 }
    }
}

impl<S> Gave<S> {
    // Of a phase that gives nothing.
    pub fn none(state: S) -> Gave<S>
        ensures { result ≡ record { state = state; given = 0 } }
    {
        Gave { state, given: 0 }
    }
}

// What takes and gives phase by phase. `still` is lent to be read; `lent` may be read and written, and keeps its length.
pub trait End: Copy {
    // where the end stands, and the machine that it is, with what is lent to be read
    ghost Place: { Type 0 };

    ghost view: { Self → Place };

    ghost machine: { List ℕ → On Place → Turn (On Place) };

    // a place that a step may start from, with so many bytes lent
    ghost Good: { List ℕ → ℕ → Place → Type 0 };

    // Takes what the phase takes of the input.
    fn absorb(self, input: &[u8], still: &[u8], lent: &mut [u8]) -> Took<Self>
        requires { Good still.now (length lent.old) (view self) }
        ensures { Absorbs (machine still.now) (on (view self) lent.old) input.now result.taken (on (view result.state) lent.new) };

    // Gives what the phase owes into the room.
    fn emit(self, room: &mut [u8], still: &[u8], lent: &[u8]) -> Gave<Self>
        requires { Good still.now (length lent.now) (view self) }
        ensures { Emits (machine still.now) (on (view self) lent.now) room.old result.given (on (view result.state) lent.now) room.new };
}

// Takes, and then gives, as far as one phase goes each.
fn turn<E: End>(s: E, input: &[u8], room: &mut [u8], still: &[u8], lent: &mut [u8]) -> Moved<E>
    requires { Lasts (E.Good still.now) (E.machine still.now) (E.view s) lent.old }
    ensures { Turns (E.machine still.now) (on (E.view s) lent.old) input.now room.old result.taken result.given (on (E.view result.state) lent.new) room.new }
{
    let took = s.absorb(input, still, lent);
    let gave = took.state.emit(room, still, lent);
    Moved {
        state: gave.state,
        taken: took.taken,
        given: gave.given,
    }
}

// Takes and gives as far as the input and the room go.
pub fn advance<E: End>(
    s: E,
    input: &[u8],
    room: &mut [u8],
    still: &[u8],
    lent: &mut [u8],
) -> Moved<E>
    requires { Lasts (E.Good still.now) (E.machine still.now) (E.view s) lent.old }
    ensures { Steps (E.machine still.now) (on (E.view s) lent.old) input.now room.old result.taken result.given (on (E.view result.state) lent.new) room.new }
{
    let mut at = s;
    let mut i = 0;
    let mut o = 0;
    // a turn goes as far as one phase does, and how many there are the machine says
    loop {
        let r = turn(at, &input[i..], &mut room[o..], still, lent);
        at = r.state;
        i += r.taken;
        o += r.given;
        if r.taken + r.given == 0 {
            break;
        }
    }
    Moved {
        state: at,
        taken: i,
        given: o,
    }
}
