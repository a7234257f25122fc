//! The engine for programs in C and in other languages: a static library of thin calls.
//!
//! C holds a word, which is null or refers to an engine (`Handle`), and gives its address to each
//! call. A call does one event, or reads the engine; it answers 0 or more, or a negative error.
//! Each names the C heap (`alloc`), for which C passes nothing.
//! `tools/bindings` writes `include/jaywardrobe.h` from these modules, doc comments included.
#![tactic(auto)]

mod answers;
mod audit;
mod engine;
mod handle;
mod lends;
mod messages;
mod passes;
mod processes;
mod raw_box;
mod sockets;
mod tables;
mod texts;
mod told;
mod version;
mod views;
