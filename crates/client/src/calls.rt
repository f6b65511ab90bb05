// The calls: how many bytes they move, their requests, and what a success changes.
ghost use Rattle.std.specs.Prelude.{◌≡◌};
ghost use Rattle.client.specs.Calls.{
  transfer,
  sought,
  amount,
  payload,
  wanted,
  type_of,
  offset_of,
  request_bytes,
  value_of,
  positioned,
  moved,
};
ghost use Rattle.client.specs.Inner.{GoodCall};

use crate::state::{Call, Device, SeekFrom, Value};
use wire::{consts, fields, number};

impl Device {
    // ---- before a call is opened

    // How many bytes a read, a write or a trim of k bytes moves. None where the position is past the size.
    #[tactic(auto, unfolding(crate::specs::Calls::transfer))]
    pub(crate) fn transfer(self, k: u64) -> Option<u32>
        ensures { result ≡ transfer self k }
    {
        let rest = self.size.checked_sub(self.position)?;
        Some(number::clamp_to_u32(k.min(rest)))
    }

    // Where a seek leads.
    pub(crate) fn sought(self, from: SeekFrom) -> Option<u64>
        ensures { result ≡ sought self from }
    {
        match from {
            SeekFrom::Start(p) => Some(p),
            SeekFrom::Current(z) => number::checked_add_i64(self.position, z),
            SeekFrom::End(z) => number::checked_add_i64(self.size, z),
        }
    }

    // ---- after a call that succeeds

    pub(crate) fn positioned(self, p: u64) -> Device
        ensures { result ≡ positioned self p }
    {
        Device {
            position: p,
            ..self
        }
    }

    pub(crate) fn moved(self, c: Call) -> Device
        requires { GoodCall self c }
        ensures { result ≡ moved self c }
    {
        match c {
            Call::Read { n, .. } | Call::Write { n, .. } => {
                self.positioned(self.position + n as u64)
            }
            Call::Resize { size } => Device { size, ..self },
            _ => self,
        }
    }
}

impl Call {
    // ---- what it names, sends and is sent

    pub(crate) fn amount(self) -> u32
        ensures { result ≡ amount self }
    {
        match self {
            Call::Read { n, .. } | Call::Write { n, .. } | Call::Trim { n } => n,
            _ => 0,
        }
    }

    pub(crate) fn payload(self) -> u32
        ensures { result ≡ payload self }
    {
        match self {
            Call::Write { n, .. } => n,
            _ => 0,
        }
    }

    pub(crate) fn wanted(self) -> u32
        ensures { result ≡ wanted self }
    {
        match self {
            Call::Read { n, .. } => n,
            _ => 0,
        }
    }

    fn type_of(self) -> u16
        ensures { result ≡ type_of self }
    {
        match self {
            Call::Read { .. } => consts::NBD_CMD_READ,
            Call::Write { .. } => consts::NBD_CMD_WRITE,
            Call::Flush => consts::NBD_CMD_FLUSH,
            Call::Trim { .. } => consts::NBD_CMD_TRIM,
            Call::Resize { .. } => consts::NBD_CMD_RESIZE,
        }
    }

    fn offset_of(self, d: Device) -> u64
        ensures { result ≡ offset_of d self }
    {
        match self {
            Call::Read { .. } | Call::Write { .. } | Call::Trim { .. } => d.position,
            Call::Flush => 0,
            Call::Resize { size } => size,
        }
    }

    // Its request on this device; the flags and the handle are 0.
    #[tactic(auto, unfolding(wire::specs::Layouts::request, wire::specs::Fields::be))]
    pub(crate) fn request_bytes(self, d: Device) -> [u8; 28]
        ensures { result ≡ request_bytes d self }
    {
        let mut bytes = [0u8; 28];
        fields::write(&mut bytes, 0, consts::NBD_REQUEST_MAGIC);
        fields::write(&mut bytes, 6, self.type_of());
        fields::write(&mut bytes, 16, self.offset_of(d));
        fields::write(&mut bytes, 24, self.amount());
        bytes
    }

    // ---- what a success gives

    pub(crate) fn value_of(self) -> Value
        ensures { result ≡ value_of self }
    {
        match self {
            Call::Read { n, .. } | Call::Write { n, .. } => Value::Bytes(n),
            _ => Value::Nothing,
        }
    }
}
