// Why a session ends, by 01's number.
#[derive(Clone, Copy, PartialEq, Eq)]
pub enum Ending {
    // DISC came
    Disconnected = 0,
    // the client's flags are neither 1 nor 3
    ClientFlags = 1,
    // the first eight bytes of an option are not the magic
    OptionMagic = 2,
    // an option is longer than 100,000 bytes
    OptionLength = 3,
    // LIST came with a payload
    ListPayload = 4,
    // a name is not UTF-8
    NameText = 5,
    // no export has that name
    UnknownName = 6,
    // ABORT came
    Aborted = 7,
    // STARTTLS came
    StartTls = 8,
    // an option of another type came
    UnknownOption = 9,
    // the first four bytes of a request are not the magic
    RequestMagic = 10,
    // a request of another type came
    UnknownRequest = 11,
    // the host reported the end of input
    InputEnded = 12,
}
