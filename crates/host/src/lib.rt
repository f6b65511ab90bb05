// What the programs share: files, numbers and messages. The libraries below need none of it.
#![tactic(auto)]

pub mod args;
pub mod faults;
pub mod files;
pub mod input;
pub mod text;
pub mod words;
