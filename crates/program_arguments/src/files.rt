// What a program is told: `old` for the drafts' layout, and a file.
ghost use Rattle.std.specs.Prelude.{◌≤◌, ◌≡◌, IfSome, length};
ghost use Rattle.program_arguments.specs.Files.{file_at, is_old, layout_of};

use crate::failures::fail;
use crate::words::{WORD_ROOM, has_word, word_at};
use program::streams::{Sink, Source};
use std::env::{Env, FillError};
use std::fs::{File, OpenOptions};
use std::io;
use std::io::Read;
use std::os::fd::AsRawFd;
use wire_spec::layout::Layout;

// Linux's numbers of two errors: a name that is too long, and one that is not text.
const NAME_TOO_LONG: i32 = 36;

const NOT_TEXT: i32 = 84;

// The descriptor of standard error.
const STANDARD_ERROR: i32 = 2;

// The word for the drafts' layout.
const OLD: &[u8] = b"old";

fn is_old(word: &[u8]) -> bool
    ensures { result ≡ is_old word.now }
{
    word == OLD
}

// The layout that a word asks for: `old` is that of the drafts (02, K3).
fn layout_of(word: &[u8]) -> Layout
    ensures { result ≡ layout_of word.now }
{
    if is_old(word) {
        return Layout::Draft2015;
    }
    Layout::Rfc8331
}

// By the first argument, if there is one.
pub fn layout_told(rt: HostRuntime) -> Layout {
    let mut word = [0u8; WORD_ROOM];
    let length = word_at(rt, 1, &mut word);
    layout_of(&word[..length])
}

// Where the file stands among the arguments: behind `old`.
pub fn file_at(layout: Layout) -> usize
    ensures { (result ≡ file_at layout) × (result ≤ 2) }
{
    match layout {
        Layout::Rfc8331 => 1,
        Layout::Draft2015 => 2,
    }
}

// Puts the name that an argument gives at the front, and answers how long it is, or says that it is too long.
fn name_at(rt: HostRuntime, program: &[u8], at: usize, name: &mut [u8]) -> Option<usize>
    ensures { IfSome result (λ n. n ≤ length name.new) }
{
    match rt.arg(at, name) {
        Ok(length) => Some(length),
        Err(FillError::NotPresent) => Some(0),
        Err(FillError::TooLong) => {
            let reason = io::Error::from_raw_os_error(NAME_TOO_LONG);
            fail(rt.stderr(), program, b"path", reason);
            None
        }
    }
}

// std opens a file by a name in UTF-8.
fn as_text(name: &[u8]) -> io::Result<&str> {
    match str::from_utf8(name) {
        Ok(text) => Ok(text),
        Err(_) => Err(io::Error::from_raw_os_error(NOT_TEXT)),
    }
}

// A directory can be opened, but not read: it is refused here.
fn open(rt: HostRuntime, name: &[u8]) -> io::Result<File> {
    let mut file = File::open(&rt, as_text(name)?)?;
    file.read(&mut [])?;
    Ok(file)
}

// A file that exists is not written over.
fn create(rt: HostRuntime, name: &[u8]) -> io::Result<File> {
    OpenOptions::new()
        .write(true)
        .create_new(true)
        .open(&rt, as_text(name)?)
}

// Opens a file of this name, or says why it cannot be opened.
pub fn open_file(rt: HostRuntime, program: &[u8], name: &[u8]) -> Option<Source> {
    match open(rt, name) {
        Ok(file) => Some(Source::named(file)),
        Err(reason) => {
            fail(rt.stderr(), program, name, reason);
            None
        }
    }
}

// Opens the file that an argument names, or says why it cannot be opened.
pub fn open_named(rt: HostRuntime, program: &[u8], at: usize) -> Option<Source> {
    let mut name = [0u8; WORD_ROOM];
    let length = name_at(rt, program, at, &mut name)?;
    open_file(rt, program, &name[..length])
}

// Makes the file that an argument names, or says why it cannot be made. If the program is started without standard
// error, a new file takes its place, and must not get the messages: then there is none.
pub fn create_named(rt: HostRuntime, program: &[u8], at: usize) -> Option<Sink> {
    let mut name = [0u8; WORD_ROOM];
    let length = name_at(rt, program, at, &mut name)?;
    match create(rt, &name[..length]) {
        Ok(file) => {
            if file.as_raw_fd() <= STANDARD_ERROR {
                return None;
            }
            Some(Sink::named(file))
        }
        Err(reason) => {
            fail(rt.stderr(), program, &name[..length], reason);
            None
        }
    }
}

// Standard input, or the file that the argument names.
pub fn open_input(rt: HostRuntime, program: &[u8], at: usize) -> Option<Source> {
    if !has_word(rt, at) {
        return Some(Source::standard(rt.stdin()));
    }
    open_named(rt, program, at)
}
