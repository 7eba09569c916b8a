// What a program reads and what it writes: standard input and output, or a file. Each keeps why the last call on it failed, if one did.
ghost use Rattle.std.specs.Prelude.{◌≡◌, IfErr, IfOk, Some, length};
ghost use Rattle.std.specs.Io.{ReadsAtMost};

use std::fs::File;
use std::io;
use std::io::{Read, Stdin, Stdout, Write};

// `Absent` is a file that is not open. Kept whole: a missing file is read as an empty one, in one match with the others.
#[derive(Drop)]
enum Reader {
    Standard(Stdin),
    Named(File),
    Absent,
}

// What octets are read from.
#[derive(Drop)]
pub struct Source {
    reader: Reader,
    reason: Option<io::Error>,
}

impl Source {
    fn new(reader: Reader) -> Source {
        Source {
            reader,
            reason: None,
        }
    }

    pub fn standard(input: Stdin) -> Source {
        Source::new(Reader::Standard(input))
    }

    pub fn named(file: File) -> Source {
        Source::new(Reader::Named(file))
    }

    // A file that is not open: it reads as empty.
    pub fn absent() -> Source {
        Source::new(Reader::Absent)
    }

    pub fn is_open(&self) -> bool {
        match self.reader {
            Reader::Standard(_) => true,
            Reader::Named(_) => true,
            Reader::Absent => false,
        }
    }

    // Why the last read that failed did, if one did.
    pub fn reason(&self) -> Option<io::Error>
        ensures { result ≡ self.now.reason }
    {
        self.reason
    }

    // Every read goes through here: one read, of as many octets as the slice holds at the most.
    pub fn read(&mut self, octets: &mut [u8]) -> io::Result<usize>
        ensures bound { ReadsAtMost result octets.new }
        ensures kept { IfErr result (λ e. self.new.reason ≡ Some e) }
    {
        let got = match &mut self.reader {
            Reader::Standard(input) => input.read(octets),
            Reader::Named(file) => file.read(octets),
            Reader::Absent => Ok(0),
        };
        if let Err(reason) = got {
            self.reason = Some(reason);
        }
        got
    }
}

#[derive(Drop)]
enum Writer {
    Standard(Stdout),
    Named(File),
}

// What octets are written to.
#[derive(Drop)]
pub struct Sink {
    writer: Writer,
    reason: Option<io::Error>,
}

impl Sink {
    fn new(writer: Writer) -> Sink {
        Sink {
            writer,
            reason: None,
        }
    }

    pub fn standard(output: Stdout) -> Sink {
        Sink::new(Writer::Standard(output))
    }

    pub fn named(file: File) -> Sink {
        Sink::new(Writer::Named(file))
    }

    // Why the last call that failed did, if one did.
    pub fn reason(&self) -> Option<io::Error>
        ensures { result ≡ self.now.reason }
    {
        self.reason
    }

    // Every write goes through here: all of the text, or it failed.
    pub fn write(&mut self, text: &[u8]) -> io::Result<usize>
        ensures all { IfOk result (λ n. n ≡ length text.now) }
        ensures kept { IfErr result (λ e. self.new.reason ≡ Some e) }
    {
        let put = match &mut self.writer {
            Writer::Standard(output) => output.write_all(text),
            Writer::Named(file) => file.write_all(text),
        };
        match put {
            Ok(()) => Ok(text.len()),
            Err(reason) => {
                self.reason = Some(reason);
                Err(reason)
            }
        }
    }

    // Waits until a file's octets are stored: some file systems report only here that a write has failed.
    pub fn store(&mut self) -> io::Result<()>
        ensures kept { IfErr result (λ e. self.new.reason ≡ Some e) }
    {
        let stored = match &mut self.writer {
            Writer::Standard(_) => Ok(()),
            Writer::Named(file) => file.sync_data(),
        };
        if let Err(reason) = stored {
            self.reason = Some(reason);
        }
        stored
    }
}
