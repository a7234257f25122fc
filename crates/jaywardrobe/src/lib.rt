//! An in-memory AF_UNIX layer: sockets, the descriptors inside their messages (SCM_RIGHTS), exact
//! counts of both, and a collector for cycles of sockets that only refer to each other. For a
//! user-space kernel, a sandbox that brokers descriptors, or a test bed.
//!
//! ```text
//! /// Loses a file in a cycle, collects it, and closes what is behind it.
//! fn lose(files: &mut Owned<HostFile>, pid: Pid, host_file: HostFile) -> Result<(), Errno> {
//!     let (here, there) = files.call(calls::Pair(pid, SockType::Seqpacket))?;
//!     let file = files.open(pid, host_file).map_err(|(errno, _)| errno)?;
//!     // The receiving socket is sent into its own queue, with the file.
//!     files.call(calls::Send(pid, here, b"take this", &[file, there]))?;
//!     files.call(calls::Exit(pid))?;
//!     files.call(calls::Begin)?;
//!     while let Progress::Working = files.call(calls::Slice(64))? {}
//!     while let Some(host_file) = files.take_released() {
//!         host_file.close();
//!     }
//!     Ok(())
//! }
//! ```
//!
//! [`Owned`] keeps a value behind each plain file, here a `HostFile` of the program, and hands it
//! back once the file is freed. It does the other events as the values of [`calls`].
//!
//! Each call of [`Engine`] is one event of a small plain machine, which has tables, queues and no
//! count. It is answered as the machine says, or refused by the first test that fits, and then
//! nothing has changed. Counts and totals are recounts of the machine's places. A pass that is done
//! has freed each file that no chain of queues and backlogs reached from a table when it began. Any
//! other file that it freed was unreferenced. All of that is proved. CALLING.md has each call in a
//! line.
#![tactic(auto)]

pub mod layer;
mod owned;
pub mod report;

pub use af_base::errno::Errno;
pub use af_base::events::{Ends, Event, Reply, Shutdown, SockType, State, Step};
pub use af_base::ids::{Fd, FileRef, Ino, Pid, Uid};
pub use af_base::items::{Bytes, Fds, Items};
pub use af_base::limits;
pub use af_base::listing::{
    ListedFile, ListedMessage, ListedNumber, ListedSocket, ListedTable, Listing,
};
pub use af_base::ready::Ready;
pub use af_layer::Shared;
pub use af_steps::{
    Answer, Call, Engine, FileInfo, Finished, Progress, Received, RunStopped, ToldList, calls,
};
pub use owned::Owned;
