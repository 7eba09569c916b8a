#![tactic(auto)]
// What `streamcheck` prints (02, K12): the lines of a report.
//
// `session::begin`, `session::check_frame` and `session::finish` are the entry points.
pub mod session;
