//! A table of values under numbers that only rise.
#![tactic(auto)]

mod changes;
mod numbered;
mod numbered_value;
mod order;
mod row;

pub use numbered::OrderedSlab;
