#![tactic(auto)]
// The field file's format (01, "Field file"): its numbers. The definitions are in specs/, their theorems in proofs/; the reader and the writer
// are crate `fieldfile_reader`.
pub mod format;
