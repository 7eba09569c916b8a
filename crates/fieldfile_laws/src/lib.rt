#![tactic(auto)]
// Field files (01, "Field file"), of what `begin`, `write_field` and `read_field` take and return. In specs/ and proofs/: no code.
