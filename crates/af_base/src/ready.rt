//! The readiness of a file.

/// The readiness of a file, in the terms of poll(2): what its next call finds. So an idle or
/// hung-up socket is not writable, though Linux reports POLLOUT for it.
#[derive(Clone, Copy, Debug, PartialEq, Eq)]
pub struct Ready {
    /// A receive of a byte, or an accept, has something to give, or the end to tell (POLLIN).
    pub readable: bool,
    /// A send of a byte without descriptors has room (POLLOUT).
    pub writable: bool,
    /// The peer was freed, or both ends of the socket are closed (POLLHUP).
    pub hung_up: bool,
}
