#![tactic(auto)]
// What the calls of the C boundary share (include/jibhotran.h): the rows that they return in, and the
// layouts' numbers.
pub mod answer;
pub mod layout;
pub mod length;
pub mod row;
