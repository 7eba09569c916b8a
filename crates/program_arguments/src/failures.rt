// The messages on standard error for a file that cannot be opened, read or written: the program, the file and
// the reason, in the C library's words.
ghost use Rattle.std.specs.Prelude.{◌≡◌, IfNone, IfSome, Some, pos};
ghost use Rattle.std.specs.IoError.{raw_os_error};

use program::streams::{Sink, Source};
use program_spec::buffers::Failure;
use std::io;
use std::io::{Cursor, Print, Stderr, Write};

// The number of no error: the C library calls it "Success".
const NO_ERROR: i32 = 0;

// More octets than the text of any reason has.
const REASON_ROOM: usize = 256;

// What std puts behind the C library's words, before the number.
const NUMBERED: &str = " (os error ";

pub(crate) fn tell(err: Stderr, text: &[u8]) {
    let _ = Print::write_all(&err, text);
}

// The reason's words.
fn tell_reason(err: Stderr, reason: io::Error) {
    let mut put = Cursor::new([0u8; REASON_ROOM]);
    let _ = write!(put, "{reason}");
    let size = put.position();
    let octets = put.into_inner();
    if size > REASON_ROOM as u64 {
        return;
    }
    let Ok(text) = str::from_utf8(&octets[..size as usize]) else {
        return;
    };
    match text.split_once(NUMBERED) {
        Some((words, _)) => tell(err, words.as_bytes()),
        None => tell(err, text.as_bytes()),
    }
}

// Every message about a file is written here.
pub fn fail(err: Stderr, program: &[u8], file: &[u8], reason: io::Error) {
    tell(err, program);
    tell(err, b": ");
    tell(err, file);
    tell(err, b": ");
    tell_reason(err, reason);
    tell(err, b"\n");
}

// A read of the file failed; without a name it is standard input.
pub fn fail_to_read(err: Stderr, program: &[u8], file: &[u8], reason: io::Error) {
    if file.len() == 0 {
        fail(err, program, b"standard input", reason);
        return;
    }
    fail(err, program, file, reason);
}

// A write to the file failed; without a name it is standard output.
pub fn fail_to_write(err: Stderr, program: &[u8], file: &[u8], reason: io::Error) {
    if file.len() == 0 {
        fail(err, program, b"standard output", reason);
        return;
    }
    fail(err, program, file, reason);
}

// The reason that is told of a call that failed: the one that was kept. If none was, that is told too, so that no failure is left out.
pub fn told_reason(kept: Option<io::Error>) -> io::Error
    ensures kept { IfSome kept (λ e. result ≡ e) }
    ensures none { IfNone kept (raw_os_error result ≡ Some (pos 0)) }
{
    kept.unwrap_or(io::Error::from_raw_os_error(NO_ERROR))
}

// What a run reads from and writes to, and the names of both.
#[derive(Clone, Copy)]
pub struct Ends<'a> {
    pub source: &'a Source,
    pub input: &'a [u8],
    pub sink: &'a Sink,
    pub output: &'a [u8],
}

// How a run ended: a read of what it reads from, or a write to what it writes to, failed, or neither.
pub fn report_failure(err: Stderr, program: &[u8], failure: Option<Failure>, ends: Ends) {
    match failure {
        None => {}
        Some(Failure::Read) => {
            let reason = told_reason(ends.source.reason());
            fail_to_read(err, program, ends.input, reason);
        }
        Some(Failure::Write) => {
            let reason = told_reason(ends.sink.reason());
            fail_to_write(err, program, ends.output, reason);
        }
    }
}
