#![tactic(auto)]
// Lists of records in cells (01, "Records in a lent list"): checked and measured, then written as octets.
//
// `check_list` is the entry point: it takes any cells. `write_run` writes what `check_list` has accepted, and asks for that.
pub mod check;
pub mod head;
pub mod write;
