#![tactic(auto)]
// The tolerant way of reading (02, K9): "a record that fails only its checksum is left out and counted, the rest come through in order". Its
// definitions stand in specs/, their laws in proofs/: no code.
