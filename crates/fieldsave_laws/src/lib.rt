#![tactic(auto)]
// What `fieldsave` files is a field file that reads back, whole or cut, and every field that is handed out is in it. In specs/ and proofs/: no code.
