// One item of a text.

#[derive(Clone, Copy)]
pub enum Item {
    // `DID_SDID={0xH,0xH}`.
    DidSdid { did: u8, sdid: u8 },
    // `VPID_Code=` and a number.
    VpidCode(u8),
    // Another name with a value, passed over.
    Other,
    // Kept as a kind of item: the definitions list it among the others, and the first item that offends decides.
    Malformed,
}
