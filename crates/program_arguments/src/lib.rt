#![tactic(auto)]
// What the programs are told: options, `old` for the drafts' layout, and files; and what they say when a file
// fails them.
pub mod failures;
pub mod files;
pub mod options;
pub mod port;
pub mod words;
