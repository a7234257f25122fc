//! The views of an engine. None takes memory, but for `listing`.
ghost use Rattle.std.specs.Prelude.{◌≡◌, ◌<◌, ◌≤◌, ℕ, None, Some, false, IfErr, IfOk, IfSome};
ghost use Rattle.std.specs.Prelude.{IfNone, OnOk, length, option_copied, option_map, slice_get};
ghost use Rattle.std.specs.FinMap as map;
ghost use Rattle.af_base.specs.World.{is_live, IsLive};
ghost use Rattle.af_base.specs.Bare.{bare};
ghost use Rattle.af_base.specs.Counts.{refs, inflight, charged, total};
ghost use Rattle.af_base.specs.Places.{table_at};
ghost use Rattle.af_base.specs.Refusals.{refusal, socket_at};
ghost use Rattle.af_base.specs.Whole.{name_at};
ghost use Rattle.af_steps.specs.FileInfo.{shown_of};

use crate::engine::Engine;
use crate::lookups::descriptor_for_file;
use af_base::errno::Errno;
use af_base::events::{Ends, SockType, State, Step};
use af_base::ids::{Fd, FileRef, Ino, Pid, Uid};
use af_base::listing::Listing;
use std::alloc::AllocError;

/// The kind and state of a file.
#[derive(Clone, Copy, Debug, PartialEq, Eq)]
pub enum FileInfo {
    /// A plain file, without any content.
    Plain,
    /// A socket: its type, its connection state, how many messages it can receive, and how many
    /// embryos wait to be accepted.
    Socket {
        kind: SockType,
        state: State,
        messages: usize,
        embryos: usize,
    },
}

impl Engine {
    /// Returns the file's reference count: how many descriptors, messages and backlogs refer to it,
    /// repeats included. 0 for an unknown file.
    pub fn refs(&self, ino: Ino) -> u64
        ensures { result ≡ refs self.now.world ino }
    {
        self.store.holdings().refs(ino)
    }

    /// Returns how often the file is in flight (unix(7), SCM_RIGHTS): how often messages in queues
    /// have it, repeats included. 0 for an unknown file.
    pub fn inflight(&self, ino: Ino) -> u64
        ensures { result ≡ inflight self.now.world ino }
    {
        self.store.holdings().inflight(ino)
    }

    /// Returns the reference count of the file of this reference. No search.
    pub fn refs_at(&self, file: &FileRef) -> u64
        ensures { result ≡ refs self.now.world file.now }
    {
        self.store.holdings().refs_at(file)
    }

    /// Returns how often the file of this reference is in flight. No search.
    pub fn inflight_at(&self, file: &FileRef) -> u64
        ensures { result ≡ inflight self.now.world file.now }
    {
        self.store.holdings().inflight_at(file)
    }

    /// Returns how many descriptors in flight are charged to the user, repeats included (unix(7),
    /// ETOOMANYREFS). 0 for an unknown user.
    pub fn charged(&self, user: Uid) -> u64
        ensures { result ≡ charged self.now.world user }
    {
        self.store.holdings().charged(user)
    }

    /// Returns how many descriptors are in flight, repeats included.
    pub fn total(&self) -> u64
        ensures { result ≡ total self.now.world }
    {
        self.store.holdings().total()
    }

    /// Returns how many files are live.
    pub fn live(&self) -> usize
        ensures { result ≡ map.len self.now.world.files }
    {
        self.store.holdings().files().live()
    }

    /// Returns the least live file above that number, if there is one.
    pub fn next_after(&self, ino: Ino) -> Option<Ino>
        ensures above { IfSome result (λ n. ino < n) }
        ensures live { IfSome result (IsLive self.now.world) }
        ensures least { IfSome result (λ n.
            (q : ℕ) → ino < q → q < n → is_live self.now.world q ≡ false) }
        ensures none { IfNone result ((q : ℕ) → ino < q → is_live self.now.world q ≡ false) }
    {
        let (next, _) = self.next_file(ino, 0)?;
        Some(next.ino())
    }

    /// Returns the least live file above that number as a reference, if there is one, and the
    /// position behind it in the order. A walk passes its last answer, and needs no search. The
    /// position is a hint.
    pub fn next_file(&self, ino: Ino, order_hint: usize) -> Option<(FileRef, usize)>
        ensures above { IfSome result (λ n. ino < n.0) }
        ensures live { IfSome result (λ n. IsLive self.now.world n.0) }
        ensures least { IfSome result (λ n.
            (q : ℕ) → ino < q → q < n.0 → is_live self.now.world q ≡ false) }
        ensures none { IfNone result ((q : ℕ) → ino < q → is_live self.now.world q ≡ false) }
    {
        self.store.holdings().files().next_after(ino, order_hint)
    }

    /// Returns the file that a descriptor of a process refers to; `None` where the descriptor is
    /// not open, or there is no such process. No search.
    pub fn ino_at(&self, pid: Pid, fd: Fd) -> Option<Ino>
        ensures { result ≡ table_at self.now.world pid fd }
    {
        let file = self.file_on(pid, fd)?;
        Some(file.ino())
    }

    /// Returns the file that a descriptor of a process refers to, as a reference, if there is one:
    /// by it `refs_at`, `inflight_at`, `file_at`, `name_at` and `ready_at` need no search.
    pub fn file_on(&self, pid: Pid, fd: Fd) -> Option<FileRef>
        ensures { result ≡ table_at self.now.world pid fd }
    {
        self.store.holdings().procs().lookup(pid, fd)
    }

    /// Tests whether `open` may succeed: if so, it is refused only if memory is. Refused, in this
    /// order: ESRCH, EMFILE, ENFILE. It needs no memory.
    pub fn check_open(&self, pid: Pid) -> Result<(), Errno>
        ensures ok { OnOk result (refusal self.now.world pid Step.Open ≡ None) }
        ensures refused { IfErr result (λ e. refusal self.now.world pid Step.Open ≡ Some e) }
    {
        descriptor_for_file(&self.store, pid)?;
        Ok(())
    }

    /// Returns the lowest open descriptor of a process from this one on, and its file, if there is
    /// one. A walk over a table asks again from the next number.
    pub fn next_open(&self, pid: Pid, from: Fd) -> Option<(Fd, FileRef)>
        ensures open { IfSome result (λ e. table_at self.now.world pid e.0 ≡ Some e.1) }
        ensures reached { IfSome result (λ e. from ≤ e.0) }
        ensures least { IfSome result (λ e.
            (n : ℕ) → from ≤ n → n < e.0 → table_at self.now.world pid n ≡ None) }
        ensures none { IfNone result ((n : ℕ) → from ≤ n → table_at self.now.world pid n ≡ None) }
    {
        self.store.holdings().procs().next_open(pid, from)
    }

    /// Returns the inode number that the next file gets.
    pub fn next_ino(&self) -> Ino
        ensures { result ≡ self.now.world.next_ino }
    {
        self.store.holdings().files().next_ino()
    }

    /// Returns the pid that the next process gets.
    pub fn next_pid(&self) -> Pid
        ensures { result ≡ self.now.world.next_pid }
    {
        self.store.holdings().procs().next_pid()
    }

    /// Returns the i-th user, from 0, in the order of their first process, if there is one.
    pub fn user_at(&self, i: usize) -> Option<Uid>
        ensures { result ≡ slice_get self.now.world.users i }
    {
        self.store.holdings().user_at(i)
    }

    /// Returns how many users there are: a user stays after its last process ended.
    pub fn users(&self) -> usize
        ensures { result ≡ length self.now.world.users }
    {
        self.store.holdings().users()
    }

    /// Returns the kind and state of the file; `None` for an unknown one.
    pub fn file(&self, ino: Ino) -> Option<FileInfo>
        ensures { result ≡ shown_of (map.get self.now.world.files ino) }
    {
        let file = self.store.holdings().files().find(ino)?;
        Some(self.file_at(&file))
    }

    /// Returns the kind and state of the file of this reference, which is live. No search.
    pub fn file_at(&self, file: &FileRef) -> FileInfo
        requires { IsLive self.now.world file.now }
        ensures { Some result ≡ shown_of (map.get self.now.world.files file.now) }
    {
        let Some(socket) = self.store.holdings().files().socket(file) else {
            return FileInfo::Plain;
        };
        FileInfo::Socket {
            kind: socket.kind(),
            state: socket.state(),
            messages: socket.queue().len(),
            embryos: socket.embryos(),
        }
    }

    /// Returns which ends of the socket shutdown(2) has closed; `None` where the file is no socket,
    /// or unknown.
    pub fn ends(&self, ino: Ino) -> Option<Ends>
        ensures { result ≡ option_map (λ s. s.ends) (socket_at self.now.world ino) }
    {
        let files = self.store.holdings().files();
        let file = files.find(ino)?;
        Some(files.socket(&file)?.ends())
    }

    /// Returns the abstract name of the socket (unix(7)), if it is one and has one.
    pub fn name(&self, ino: Ino) -> Option<&[u8]>
        ensures { option_copied result ≡ name_at self.now.world ino }
    {
        let file = self.store.holdings().files().find(ino)?;
        self.name_at(&file)
    }

    /// Returns the name of the file of this reference. No search.
    pub fn name_at(&self, file: &FileRef) -> Option<&[u8]>
        ensures { option_copied result ≡ name_at self.now.world file.now }
    {
        let name = self.store.holdings().files().socket(file)?.name()?;
        Some(name.as_slice())
    }

    /// Returns plain lists of the tables, queues and backlogs, and the user charged for each
    /// message; no bytes, states, names or limits. Fails only if memory is refused.
    pub fn listing(&self) -> Result<Listing, AllocError>
        ensures { IfOk result (λ l. l ≡ bare self.now.world) }
    {
        self.store.holdings().listing()
    }
}
