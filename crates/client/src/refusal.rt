// Why a call or a step is refused.
ghost use Rattle.std.specs.Prelude.{◌≡◌};
ghost use Rattle.client.specs.Ranges.{number};

#[derive(Clone, Copy, PartialEq, Eq)]
pub enum Refusal {
    // a handshake with a name of over 4,096 bytes
    LongName,
    // a seek that leaves 0 to 2^64-1, or is by -2^63
    SeekOutside,
    // a read, a write or a trim with the position past the size
    PastSize,
    // a call while one is open, before the handshake is closed, or after an end
    NotNow,
    // what is lent does not have the length that it had at the start
    OtherLength,
    // a state outside its ranges
    OutOfRange,
}

impl Refusal {
    // 01's number.
    pub fn number(self) -> u8
        ensures { result ≡ number self }
    {
        match self {
            Refusal::LongName => 44,
            Refusal::SeekOutside => 48,
            Refusal::PastSize => 49,
            Refusal::NotNow => 51,
            Refusal::OtherLength => 52,
            Refusal::OutOfRange => 53,
        }
    }
}
