// What stands on the wire: numbers, UTF-8, the protocol's constants and fixed strings, and the export table. Knows no role.
#![tactic(auto)]

pub mod consts;
pub mod fields;
pub mod lookup;
pub mod number;
pub mod records;
pub mod table;
pub mod utf8;
