//! Laws of what files are ready for.
ghost use Rattle.af_laws.specs.Polling.{ReadyIsWhatStepsFind, StepLeavesReady, PurgeLeavesReady};

/// In a sound world a socket's readiness is what steps find, of each process that has it at a
/// number. It tells whether a receive of a byte, an accept and a send of a byte are refused, or, of
/// a datagram socket, a send would wait, and whether the peer was freed or both ends are closed.
pub fn ready_is_what_steps_find()
    ensures { ReadyIsWhatStepsFind }
{}

/// A step leaves what a file is ready for, where it touches neither the file nor its peer or
/// target, and that stays, if it was there, whatever the answer.
pub fn step_leaves_ready()
    ensures { StepLeavesReady }
{}

/// A slice or a pass that empties some files keeps the readiness of each other file whose peer or
/// target is not among them and stays, if it was there.
pub fn purge_leaves_ready()
    ensures { PurgeLeavesReady }
{}
