//! Open file descriptions: plain files and sockets with their queues, how many places hold each,
//! and what a pass of the collector has marked, under inode numbers that are never used again.
#![tactic(auto)]

mod contents;
mod counts;
mod dirty_mark;
mod file_row;
mod file_table;
mod files;
mod marks;
mod socket;
mod told_lists;

pub use contents::{Contents, Popped};
pub use files::Files;
pub use socket::Socket;
pub use told_lists::ToldList;
