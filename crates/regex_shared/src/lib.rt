//! One search that all calls for a `Regex` share. Its lazy automata fill their caches while it reads,
//! so a later call finds them filled. The caller passes `&self`, and nobody waits for another call.
#![tactic(auto)]

mod literals;
mod regex_search;
mod searcher;
mod shared_search;
mod texts;

pub use regex_vm::Declined;
pub use shared_search::SharedSearch;
