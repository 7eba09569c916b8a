// What is carried from item to item, and what an item gives.
use capture_spec::state::State;
use program_spec::buffers::Step;

// Where the reading stands; the number of the refusal that ended the walk, if any did; how many packets there
// were, and of these fragments and packets that were cut.
#[derive(Clone, Copy)]
pub struct Session {
    pub state: State,
    pub refusal: Option<u8>,
    pub packets: u64,
    pub fragments: u64,
    pub cut: u64,
}

#[derive(Clone, Copy)]
pub struct Reply {
    pub session: Session,
    pub step: Step,
}
