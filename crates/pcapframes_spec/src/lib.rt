#![tactic(auto)]
// A capture walked item by item for the UDP datagrams to a port: what is carried from item to item, the frames (RFC 4571) that are its output, and that these
// read back as the datagrams' payloads. Types, definitions and theorems; no code.
pub mod session;
