// Why a step or the end of input is refused.
ghost use Rattle.std.specs.Prelude.{◌≡◌};
ghost use Rattle.server.specs.Ranges.{number};
ghost use Rattle.server.specs.declared.refusal.Refusal.TheVariants.{Table};

use wire::table::Fault;

#[derive(Clone, Copy, Debug, PartialEq, Eq)]
pub enum Refusal {
    // the table's first fault
    Table(Fault),
    // the export's window does not lie in the image
    Window,
    // a state outside its ranges
    OutOfRange,
    // the end of input while output is owed
    OutputOwed,
}

impl Refusal {
    // 01's number.
    pub fn number(self) -> u8
        ensures { result ≡ number self }
    {
        match self {
            Refusal::Table(fault) => fault.number(),
            Refusal::Window => 26,
            Refusal::OutOfRange => 27,
            Refusal::OutputOwed => 28,
        }
    }
}

impl From<Fault> for Refusal {
    ghost from_gives = { λ fault why. why ≡ Table fault };

    fn from(fault: Fault) -> Refusal {
        Refusal::Table(fault)
    }
}
