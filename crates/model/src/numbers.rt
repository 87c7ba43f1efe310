// Why a call is refused: those of documents 01 and 02, whose words stand at their definitions in specs/. An answer's number is 0 for an accepted call.
ghost use Rattle.std.specs.Prelude.{◌≡◌};
ghost use Rattle.model.specs.Numbers.{number};

#[derive(Clone, Copy, Debug, PartialEq, Eq)]
pub enum Refusal {
    ClockTooHigh = 1,
    ClockBack = 2,
    NoSuchEndpoint = 3,
    BufferTooSmall = 4,
    DatagramTooLong = 5,
    DatagramMalformed = 6,
    NoSuchHousehold = 7,
    PaidAlready = 8,
    DataFull = 9,
    NoSuchNode = 10,
    NotASnapshot = 11,
    NoSuchInterval = 12,
}

impl Refusal {
    // What hosts are answered.
    pub fn number(self) -> u32
        ensures { result ≡ number self }
    {
        self as u32
    }
}
