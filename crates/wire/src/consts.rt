// The protocol's constants, under the crate's names, and its fixed strings.

// ---- the fixed strings
pub const NBDMAGIC: [u8; 8] = *b"NBDMAGIC";

pub const IHAVEOPT: [u8; 8] = *b"IHAVEOPT";

// The second magic of the old style.
pub const OLDSTYLE: [u8; 8] = *b"\x00\x00\x42\x02\x81\x86\x12\x53";

// The one name that LIST answers with.
pub const RUSTNBD: [u8; 7] = *b"rustnbd";

// ---- magic numbers
pub const NBD_OPT_REPLY_MAGIC: u64 = 0x0003_E889_0455_65A9;

pub const NBD_REQUEST_MAGIC: u32 = 0x2560_9513;

pub const NBD_REPLY_MAGIC: u32 = 0x6744_6698;

// ---- handshake flags of the server, and of the client
pub const NBD_FLAG_FIXED_NEWSTYLE: u16 = 1;

pub const NBD_FLAG_NO_ZEROES: u16 = 2;

pub const NBD_FLAG_C_FIXED_NEWSTYLE: u32 = 1;

pub const NBD_FLAG_C_NO_ZEROES: u32 = 2;

// ---- options
pub const NBD_OPT_EXPORT_NAME: u32 = 1;

pub const NBD_OPT_ABORT: u32 = 2;

pub const NBD_OPT_LIST: u32 = 3;

pub const NBD_OPT_STARTTLS: u32 = 5;

pub const NBD_OPT_INFO: u32 = 6;

pub const NBD_OPT_GO: u32 = 7;

pub const NBD_OPT_STRUCTURED_REPLY: u32 = 8;

pub const NBD_OPT_EXTENDED_HEADERS: u32 = 11;

// ---- option replies
pub const NBD_REP_ACK: u32 = 1;

pub const NBD_REP_SERVER: u32 = 2;

pub const NBD_REP_ERR_UNSUP: u32 = 0x8000_0001;

// ---- an export's flags on the wire
pub const NBD_FLAG_HAS_FLAGS: u16 = 1;

pub const NBD_FLAG_READ_ONLY: u16 = 2;

pub const NBD_FLAG_SEND_FLUSH: u16 = 4;

pub const NBD_FLAG_ROTATIONAL: u16 = 16;

pub const NBD_FLAG_SEND_TRIM: u16 = 32;

pub const NBD_FLAG_SEND_RESIZE: u16 = 512;

// ---- request types
pub const NBD_CMD_READ: u16 = 0;

pub const NBD_CMD_WRITE: u16 = 1;

pub const NBD_CMD_DISC: u16 = 2;

pub const NBD_CMD_FLUSH: u16 = 3;

pub const NBD_CMD_TRIM: u16 = 4;

pub const NBD_CMD_WRITE_ZEROES: u16 = 6;

pub const NBD_CMD_RESIZE: u16 = 8;

// ---- errors in a reply
pub const NBD_EPERM: u32 = 1;

pub const NBD_EINVAL: u32 = 22;

pub const NBD_ENOSPC: u32 = 28;

pub const NBD_ENOSYS: u32 = 38;
