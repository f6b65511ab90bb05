// Why a session ends, by 01's number.
#[derive(Clone, Copy, PartialEq, Eq)]
pub enum Ending {
    // the first 8 bytes are not the magic
    NoServer = 40,
    // the next 8 name no style
    UnknownStyle = 41,
    // the old style has no names
    OldStyleName = 42,
    // a byte of the filler is not 0
    Filler = 43,
    // a reply's signature is not the magic
    Signature = 45,
    // a reply's handle is not 0
    Handle = 46,
    // the host reported the end of input
    InputEnded = 50,
}
