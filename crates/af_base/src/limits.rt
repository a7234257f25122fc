//! The limits: how many of each kind there may be, and the largest number of each kind.
ghost use Rattle.std.specs.Prelude.{◌≡◌};

/// Processes at once.
pub const MAX_PROCESSES: usize = 1024;

/// The largest limit on descriptors (RLIMIT_NOFILE) that a process may have.
pub const MAX_NOFILE: u32 = 1024;

/// Live open file descriptions.
pub const MAX_FILES: usize = 65_536;

/// Messages in a queue.
pub const MAX_MESSAGES: usize = 64;

/// Bytes of a message, and of a receive's buffer.
pub const MAX_BYTES: usize = 65_536;

/// Descriptors of a message, as Linux has it (unix(7), SCM_RIGHTS).
pub const SCM_MAX_FD: usize = 253;

/// Embryos in a backlog: connections that wait at a listener.
pub const MAX_BACKLOG: u32 = 128;

/// Descriptors in flight, of all users together.
pub const MAX_INFLIGHT: u64 = 1_048_576;

/// Bytes of a name.
pub const MAX_NAME: usize = 107;

/// The last pid that is given.
pub const MAX_PID: u32 = 1_000_000_000;

/// The last inode number that is given.
pub const MAX_INO: u64 = 1_099_511_627_775;

/// The largest pass number; later passes have it too.
pub const MAX_PASS: u64 = 1_000_000_000_000;

/// The largest budget of a slice, in units. The smallest is 1.
pub const MAX_BUDGET: u32 = 65_536;

/// Entries of a log.
pub const MAX_LOG: usize = 1_048_576;

/// Seats of a layer.
pub const MAX_SEATS: u32 = 64;

/// Does nothing at run time. Shows the limits as numbers.
pub fn lemma_limits()
    ensures processes { MAX_PROCESSES ≡ 1024 }
    ensures nofile { MAX_NOFILE ≡ 1024 }
    ensures files { MAX_FILES ≡ 65536 }
    ensures messages { MAX_MESSAGES ≡ 64 }
    ensures bytes { MAX_BYTES ≡ 65536 }
    ensures attached { SCM_MAX_FD ≡ 253 }
    ensures backlog { MAX_BACKLOG ≡ 128 }
    ensures inflight { MAX_INFLIGHT ≡ 1048576 }
    ensures name { MAX_NAME ≡ 107 }
    ensures pid { MAX_PID ≡ 1000000000 }
    ensures ino { MAX_INO ≡ 1099511627775 }
    ensures pass { MAX_PASS ≡ 1000000000000 }
    ensures budget { MAX_BUDGET ≡ 65536 }
    ensures log { MAX_LOG ≡ 1048576 }
    ensures seats { MAX_SEATS ≡ 64 }
{}
