// What was read and not taken yet, for a program that takes its input in pieces.
ghost use Rattle.std.specs.Prelude.{◌≡◌, ◌+◌, ◌-◌, ◌≤◌, length, take, drop, IfOk};

use std::io::{Read, Result};

const PIECE: usize = 262144;

// The bytes from `at` to `have` are not taken yet. A `Vec` in place of the array could fail for want of memory.
#[derive(Drop)]
pub struct Input {
    bytes: [u8; PIECE],
    at: usize,
    have: usize,
    ghost order: { at ≤ have },
    ghost fits: { have ≤ 262144 },
}

impl Input {
    pub fn new() -> Input
        ensures { result.have ≡ 0 }
    {
        Input {
            bytes: [0u8; PIECE],
            at: 0,
            have: 0,
        }
    }

    // What is at hand.
    pub fn rest(&self) -> &[u8]
        ensures bytes { result.now ≡ take (self.now.have - self.now.at) (drop self.now.at self.now.bytes) }
        ensures length { self.now.at + length result.now ≡ self.now.have }
    {
        &self.bytes[self.at..self.have]
    }

    // Passes over so many bytes, which are taken.
    pub fn take(&mut self, n: usize)
        requires { self.old.at + n ≤ self.old.have }
        ensures at { self.new.at ≡ self.old.at + n }
        ensures have { self.new.have ≡ self.old.have }
        ensures bytes { self.new.bytes ≡ self.old.bytes }
    {
        self.at += n;
    }

    // Reads what is there, in place of what was at hand: how many bytes that is, and none at the end.
    pub fn read(&mut self, from: &mut impl Read) -> Result<usize>
        ensures at { IfOk result (λ n. self.new.at ≡ 0) }
        ensures have { IfOk result (λ n. self.new.have ≡ n) }
    {
        let n = from.read(&mut self.bytes)?;
        self.at = 0;
        self.have = n;
        Ok(n)
    }
}
