//! Engines for tests of code that is generic over the trait `Engine`. Each of them fulfills the contract of the trait,
//! and none really searches.
#![tactic(auto)]

mod bare;
mod heads;
mod refuser;

pub use bare::Bare;
pub use heads::Heads;
pub use refuser::Refuser;
