#![tactic(auto)]
// Two field files side by side (02, K14): the list of their differences and its text. The definitions are in specs/, their laws in proofs/: no code.
