//! The tests of the crates, a module for each: what no clause says and no script shows.
#![tactic(auto)]

#[cfg(test)]
mod books;
#[cfg(test)]
mod checkpoints;
#[cfg(test)]
mod cycle;
#[cfg(test)]
mod full_logs;
#[cfg(test)]
mod gates;
#[cfg(test)]
mod runs;
