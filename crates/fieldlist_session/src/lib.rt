#![tactic(auto)]
// What `fieldlist` prints (01, "`fieldlist`"): frames, and what their packets give.
//
// `session::begin`, `session::list_frame` and `session::finish` are the entry points.
pub mod session;
