// The words that a program is told, octets that need not be text. The first stands at 1.
ghost use Rattle.std.specs.Prelude.{◌≤◌, length};

use std::env::{Env, FillError};

// Octets of the longest word that is read: more than any path has.
pub const WORD_ROOM: usize = 4096;

pub fn has_word(rt: HostRuntime, at: usize) -> bool {
    match rt.arg(at, &mut []) {
        Ok(_) => true,
        Err(FillError::TooLong) => true,
        Err(FillError::NotPresent) => false,
    }
}

// Puts a word at the front, and says how long it is: 0 where there is none, or it is too long.
pub fn word_at(rt: HostRuntime, at: usize, word: &mut [u8]) -> usize
    ensures { result ≤ length word.new }
{
    match rt.arg(at, word) {
        Ok(length) => length,
        Err(_) => 0,
    }
}
