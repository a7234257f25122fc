//! The laws that the definitions of `af_base` keep. Each law is what a public function with an
//! empty body ensures, so that it is a theorem on the definitions alone.
#![tactic(auto)]

pub mod connecting;
pub mod datagrams;
pub mod keeping;
pub mod numbering;
pub mod peeking;
pub mod places;
pub mod polling;
pub mod purging;
pub mod reaching;
pub mod rows;
pub mod running;
pub mod settling;
pub mod shutting;
pub mod stepping;
pub mod taking;
pub mod telling;
