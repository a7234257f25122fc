//! Laws of datagram sockets: their targets, what is sent to these, and what such sockets do not
//! have.
ghost use Rattle.af_laws.specs.Datagrams.{ATargetHoldsNothing, ANameHoldsNothing};
ghost use Rattle.af_laws.specs.Datagrams.{UnconnectNeverFails, AFreedTargetStays};
ghost use Rattle.af_laws.specs.Datagrams.{AReconnectLosesWhatWaits, ASendGoesToTheTarget};
ghost use Rattle.af_laws.specs.Datagrams.{ConnectsNeedATarget, SendsNeedATarget};
ghost use Rattle.af_laws.specs.Datagrams.{AWritableSocketDoesNotWait, DatagramsHaveNoEnd};
ghost use Rattle.af_laws.specs.Datagrams.{DatagramsDoNotListen};

/// A target is no place: a socket where nothing waits gets or loses one, and all is held, reached
/// and counted as before.
pub fn a_target_holds_nothing()
    ensures { ATargetHoldsNothing }
{}

/// A name is no place.
pub fn a_name_holds_nothing()
    ensures { ANameHoldsNothing }
{}

/// A datagram socket at an open descriptor can always lose its target: there is no other answer,
/// also where it has none.
pub fn unconnect_never_fails()
    ensures { UnconnectNeverFails }
{}

/// A number that was given and is not live is never live again: a valid send of a socket that sends
/// there is refused by ECONNREFUSED from then on, whatever happens.
pub fn a_freed_target_stays()
    ensures { AFreedTargetStays }
{}

/// A connect of a datagram socket that answers Ok, where the socket sent to another target, leaves
/// nothing in its queue.
pub fn a_reconnect_loses_what_waits()
    ensures { AReconnectLosesWhatWaits }
{}

/// A send of a datagram socket that is done puts the message last in the queue of its target.
pub fn a_send_goes_to_the_target()
    ensures { ASendGoesToTheTarget }
{}

/// A connect of a datagram socket that answers Ok found a target that takes from it.
pub fn connects_need_a_target()
    ensures { ConnectsNeedATarget }
{}

/// A send that is done, of any socket, had a target or a peer that takes from it.
pub fn sends_need_a_target()
    ensures { SendsNeedATarget }
{}

/// A send of one byte at a socket that is writable is not refused by EAGAIN.
pub fn a_writable_socket_does_not_wait()
    ensures { AWritableSocketDoesNotWait }
{}

/// A receive from a datagram socket never answers End, also where its input is closed.
pub fn datagrams_have_no_end()
    ensures { DatagramsHaveNoEnd }
{}

/// No datagram socket of a sound world listens, has a peer or a backlog.
pub fn datagrams_do_not_listen()
    ensures { DatagramsDoNotListen }
{}
