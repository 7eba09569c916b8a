// What a program holds between its turns, and what it is answered for the item at the front.
use wire_spec::refusal::Refusal;

// The octets from `at` to `end` of the input are still to be used, and the first `filled` of the text to be written.
// Kept without an invariant: `InBounds` speaks of the lengths of slices that are lent, which this does not hold.
#[derive(Clone, Copy)]
pub struct Buffers {
    pub at: usize,
    pub end: usize,
    pub filled: usize,
    // Whether there may be more; and whether a read or a write failed.
    pub open: bool,
    pub failed: bool,
}

// Which call failed.
#[derive(Clone, Copy, Debug, PartialEq, Eq)]
pub enum Failure {
    Read,
    Write,
}

// What stands at the front: no whole item; one of `used` octets, whose text has `length`; nothing that is taken any more; or too little was lent (23).
// Kept whole: `after_step` decides over the four together, and none is passed on as a failure.
#[derive(Clone, Copy)]
pub enum Step {
    Short,
    Taken { used: usize, length: usize },
    Over,
    Refused(Refusal),
}
