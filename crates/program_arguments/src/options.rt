// The options of every program, `--help` and `--version`: an argument that begins with `-` is one. A file of such a name is given as `./-x`.
ghost use Rattle.std.specs.Prelude.{◌≡◌};
ghost use Rattle.program_arguments.specs.Options.{option_of};

use crate::failures::tell;
use crate::words::{WORD_ROOM, has_word, word_at};
use std::io::{Print, Stderr, Stdout};

// The names of the options.
const HELP: &[u8] = b"--help";

const VERSION: &[u8] = b"--version";

// What an argument tells a program.
#[derive(Clone, Copy)]
pub enum Told {
    // It is no option.
    Operand,
    Help,
    Version,
    Unknown,
}

pub fn option_of(word: &[u8]) -> Told
    ensures { result ≡ option_of word.now }
{
    if !word.starts_with(b"-") {
        return Told::Operand;
    }
    if word == HELP {
        return Told::Help;
    }
    if word == VERSION {
        return Told::Version;
    }
    Told::Unknown
}

// Standard output may be closed: then nobody reads what is told.
fn print(out: Stdout, text: &[u8]) {
    let _ = out.write_all(text);
}

// The version of the programs and of the library; the C header has it as JIBHOTRAN_VERSION.
fn print_version(out: Stdout, name: &[u8]) {
    print(out, name);
    print(out, b" (Jibhotran) 4.14.0\n");
}

// A line on standard error: the word, and what is wrong with it.
fn complain(err: Stderr, word: &[u8], what: &[u8]) {
    tell(err, word);
    tell(err, what);
}

// Does what the first option among the arguments tells, and says whether there is none.
fn has_no_option(rt: HostRuntime, name: &[u8], help: &[u8]) -> bool {
    for at in 1..usize::MAX {
        if !has_word(rt, at) {
            return true;
        }
        let mut word = [0u8; WORD_ROOM];
        let length = word_at(rt, at, &mut word);
        match option_of(&word[..length]) {
            Told::Operand => {}
            Told::Help => {
                print(rt.stdout(), help);
                return false;
            }
            Told::Version => {
                print_version(rt.stdout(), name);
                return false;
            }
            Told::Unknown => {
                complain(
                    rt.stderr(),
                    &word[..length],
                    b": unknown option, see --help\n",
                );
                return false;
            }
        }
    }
    true
}

// Whether a program that takes so many words at the most is to do its work. Where not, what its arguments ask for is done, or what is wrong is told.
pub fn may_start(rt: HostRuntime, name: &[u8], help: &[u8], most: usize) -> bool {
    if !has_no_option(rt, name, help) {
        return false;
    }
    if !has_word(rt, most.saturating_add(1)) {
        return true;
    }
    complain(rt.stderr(), name, b": too many arguments, see --help\n");
    false
}

// Whether a program is told so many words; fewer are told on standard error.
pub fn has_words(rt: HostRuntime, name: &[u8], least: usize) -> bool {
    if has_word(rt, least) {
        return true;
    }
    complain(rt.stderr(), name, b": too few arguments, see --help\n");
    false
}
