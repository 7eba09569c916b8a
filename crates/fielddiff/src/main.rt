#![tactic(auto)]
// Prints every difference of two field files, and nothing else (02, K14): `fielddiff LEFT RIGHT`. The lines are the library's; this program moves octets.
use fielddiff_run::compare;
use program::streams::Source;
use program_arguments::files::open_named;
use program_arguments::options::{has_words, may_start};
use program_arguments::words::{WORD_ROOM, has_word, word_at};

// The file that the argument names. "A file that can't be opened reads as empty" (02, K14), and so does one
// that is not named.
fn open_file(rt: HostRuntime, at: usize) -> Source {
    if !has_word(rt, at) {
        return Source::absent();
    }
    match open_named(rt, b"fielddiff", at) {
        Some(file) => file,
        None => Source::absent(),
    }
}

// Whether the work is to be done: not if an option asks for something else, nor if there are too many
// arguments.
fn starts(rt: HostRuntime) -> bool {
    may_start(
        rt,
        b"fielddiff",
        b"Usage: fielddiff LEFT RIGHT\n\
          Prints every difference of two field files. Equal files print nothing.\n\
          \x20\x20--help     print this and end\n\
          \x20\x20--version  print the version and end\n\
          A file whose name begins with - is given as ./-x.\n",
        2,
    )
}

fn main(rt: HostRuntime) {
    if !starts(rt) {
        return;
    }
    // A file that is not named is compared as an empty one all the same.
    has_words(rt, b"fielddiff", 2);
    let mut left = open_file(rt, 1);
    let mut right = open_file(rt, 2);
    let mut left_name = [0u8; WORD_ROOM];
    let left_length = word_at(rt, 1, &mut left_name);
    let mut right_name = [0u8; WORD_ROOM];
    let right_length = word_at(rt, 2, &mut right_name);
    compare(
        rt,
        &mut left,
        &mut right,
        &left_name[..left_length],
        &right_name[..right_length],
    );
}
