#![tactic(auto)]
// Records in a lent list (01, "Records in a lent list"): the check of one, and its header as a struct, which tells a line from the special values.
//
// `Header::at` is the entry point: it takes any cells.
pub mod check;
pub mod header;
pub mod location;
