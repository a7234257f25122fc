//! Laws of a shutdown.
ghost use Rattle.af_laws.specs.Shutting.{ShutdownChangesNoPlace, ShutdownNeverFails};
ghost use Rattle.af_laws.specs.Shutting.{SecondShutdownChangesNothing, ShutEndsStayShut};
ghost use Rattle.af_laws.specs.Shutting.{WhatWaitsIsReceivedAfterShutdown, ShutInputEnds};
ghost use Rattle.af_laws.specs.Shutting.{ShutdownClosesEnds, NothingIsSentThroughAClosedEnd};

/// A shutdown changes no place, no name and no state, whatever the answer.
pub fn shutdown_changes_no_place()
    ensures { ShutdownChangesNoPlace }
{}

/// A socket at an open descriptor can always be shut: there is no other answer, also where its ends
/// are closed already.
pub fn shutdown_never_fails()
    ensures { ShutdownNeverFails }
{}

/// A shutdown that answers Ok closes the ends of the socket, those of its peer that they meet, and
/// none of another socket.
pub fn shutdown_closes_ends()
    ensures { ShutdownClosesEnds }
{}

/// A second shutdown of the same kind changes nothing, whatever both are answered.
pub fn second_shutdown_changes_nothing()
    ensures { SecondShutdownChangesNothing }
{}

/// No event opens a closed end of a socket, whatever the answer.
pub fn shut_ends_stay_shut()
    ensures { ShutEndsStayShut }
{}

/// What waits anywhere is received after a shutdown, of any kind and by any process, as it would
/// have been before it.
pub fn what_waits_is_received_after_shutdown()
    ensures { WhatWaitsIsReceivedAfterShutdown }
{}

/// A valid receive from a connected socket with a closed input, where nothing waits, answers End;
/// a datagram socket is none.
pub fn shut_input_ends()
    ensures { ShutInputEnds }
{}

/// A send through a closed output, or to a closed input of the peer, is refused by EPIPE in a whole
/// world.
pub fn nothing_is_sent_through_a_closed_end()
    ensures { NothingIsSentThroughAClosedEnd }
{}
