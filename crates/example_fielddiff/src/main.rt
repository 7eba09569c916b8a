#![tactic(auto)]
// Compares samples (02, K14): equal files, each kind of line, each refusal of a file on either side and on both, an empty file and a missing one; each pair
// behind its names, and then exchanged.
use fielddiff_run::compare;
use program::streams::Source;
use std::fs::File;

fn open_sample(rt: HostRuntime, path: &str) -> Source {
    match File::open(&rt, path) {
        Ok(file) => Source::named(file),
        Err(_) => Source::absent(),
    }
}

fn name(rt: HostRuntime, path: &str) {
    let _ = println!(rt; "{path}");
}

fn show(rt: HostRuntime, left: &str, right: &str) {
    name(rt, left);
    name(rt, right);
    let mut left_file = open_sample(rt, left);
    let mut right_file = open_sample(rt, right);
    compare(
        rt,
        &mut left_file,
        &mut right_file,
        left.as_bytes(),
        right.as_bytes(),
    );
}

fn both(rt: HostRuntime, left: &str, right: &str) {
    show(rt, left, right);
    show(rt, right, left);
}

// Beside a file of two fields.
fn beside(rt: HostRuntime, path: &str) {
    both(rt, "equal2.anf", path);
}

// A file that is refused: on either side, and on both.
fn refused(rt: HostRuntime, path: &str) {
    beside(rt, path);
    show(rt, path, path);
}

// Files that are read whole.
fn show_read(rt: HostRuntime) {
    beside(rt, "equal1.anf");
    beside(rt, "other.anf");
    beside(rt, "turned.anf");
    beside(rt, "word.anf");
    beside(rt, "longer.anf");
    beside(rt, "head.anf");
}

// Files whose head is refused.
fn show_heads(rt: HostRuntime) {
    refused(rt, "empty.anf");
    refused(rt, "missing.anf");
    refused(rt, "name.anf");
    refused(rt, "version.anf");
    refused(rt, "short.anf");
}

// Files of which a field is cut or too large.
fn show_sizes(rt: HostRuntime) {
    refused(rt, "cut52.anf");
    refused(rt, "longercut.anf");
    refused(rt, "cut9.anf");
    refused(rt, "count9.anf");
    refused(rt, "over21.anf");
}

// Files of which a field is refused by what it says.
fn show_fields(rt: HostRuntime) {
    refused(rt, "f53.anf");
    refused(rt, "bad10.anf");
    refused(rt, "bad11.anf");
    refused(rt, "bad12.anf");
    refused(rt, "bad16.anf");
}

// Others.
fn show_pairs(rt: HostRuntime) {
    both(rt, "head.anf", "head.anf");
    both(rt, "long.anf", "long2.anf");
    both(rt, "empty.anf", "missing.anf");
    both(rt, "name.anf", "version.anf");
    both(rt, "bad10.anf", "bad11.anf");
    both(rt, "cut52.anf", "f53.anf");
    both(rt, "other.anf", "bad12.anf");
}

fn main(rt: HostRuntime) {
    show_read(rt);
    show_heads(rt);
    show_sizes(rt);
    show_fields(rt);
    show_pairs(rt);
}
