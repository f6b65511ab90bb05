// UTF-8, a byte at a time.
ghost use Rattle.std.specs.Prelude.{◌≡◌};
ghost use Rattle.machine.specs.Choice.{pick, between};
ghost use Rattle.wire.specs.Utf8.{lead, next, run, whole};

// Where a text stands after the bytes so far.
#[derive(Clone, Copy, Debug, PartialEq, Eq)]
pub enum Utf8 {
    // between two characters
    Start,
    // so many tail bytes are to come, each 80..BF
    Tail1,
    Tail2,
    Tail3,
    // after the lead, whose first tail byte has a range of its own
    AfterE0,
    AfterED,
    AfterF0,
    AfterF4,
    // no text begins so; a place like the others, of which `bad_for_ever` speaks
    Bad,
}

// After a byte that begins a character.
#[tactic(auto, unfolding(crate::specs::Utf8::lead))]
fn lead(b: u8) -> Utf8
    ensures { result ≡ lead b }
{
    match b {
        0x00..=0x7F => Utf8::Start,
        0xC2..=0xDF => Utf8::Tail1,
        0xE0 => Utf8::AfterE0,
        0xED => Utf8::AfterED,
        0xE1..=0xEF => Utf8::Tail2,
        0xF0 => Utf8::AfterF0,
        0xF1..=0xF3 => Utf8::Tail3,
        0xF4 => Utf8::AfterF4,
        _ => Utf8::Bad,
    }
}

// After a tail byte, which has to be lo..hi.
fn tail(b: u8, lo: u8, hi: u8, then: Utf8) -> Utf8
    ensures { result ≡ pick (between lo hi b) then Utf8.Bad }
{
    if (lo..=hi).contains(&b) {
        then
    } else {
        Utf8::Bad
    }
}

impl Utf8 {
    // Before the first byte of a text.
    pub fn new() -> Utf8
        ensures { result ≡ Utf8.Start }
    {
        Utf8::Start
    }

    // After one byte more.
    #[tactic(auto, unfolding(crate::specs::Utf8::next))]
    pub fn next(self, b: u8) -> Utf8
        ensures { result ≡ next self b }
    {
        match self {
            Utf8::Start => lead(b),
            Utf8::Tail1 => tail(b, 0x80, 0xBF, Utf8::Start),
            Utf8::Tail2 => tail(b, 0x80, 0xBF, Utf8::Tail1),
            Utf8::Tail3 => tail(b, 0x80, 0xBF, Utf8::Tail2),
            Utf8::AfterE0 => tail(b, 0xA0, 0xBF, Utf8::Tail1),
            Utf8::AfterED => tail(b, 0x80, 0x9F, Utf8::Tail1),
            Utf8::AfterF0 => tail(b, 0x90, 0xBF, Utf8::Tail2),
            Utf8::AfterF4 => tail(b, 0x80, 0x8F, Utf8::Tail2),
            Utf8::Bad => Utf8::Bad,
        }
    }

    // After a part more, a byte at a time.
    pub fn run(self, part: &[u8]) -> Utf8
        ensures { result ≡ run self part.now }
    {
        part.iter().fold(self, |s, b| s.next(*b))
    }

    // Whether a text may end here.
    pub fn whole(self) -> bool
        ensures { result ≡ whole self }
    {
        matches!(self, Utf8::Start)
    }
}
