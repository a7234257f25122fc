//! Laws of connections: names, listeners, and the embryos that wait in their backlogs.
ghost use Rattle.af_laws.specs.Connecting.{NamesFindTheirSockets, BoundSocketsAreFound};
ghost use Rattle.af_laws.specs.Connecting.{BindChangesNoCount, ListenChangesNoCount};
ghost use Rattle.af_laws.specs.Connecting.{ConnectMakesAnEmbryo, ConnectCounts};
ghost use Rattle.af_laws.specs.Connecting.{ConnectChargesNobody, AcceptKeepsReferences};
ghost use Rattle.af_laws.specs.Connecting.{AcceptTakesTheFirstEmbryo, AcceptedNumberIsTheEmbryo};
ghost use Rattle.af_laws.specs.Connecting.{EmbryosAreReached, WhatEmbryosHoldIsReached};

/// A name finds the socket that has it, and no other.
pub fn names_find_their_sockets()
    ensures { NamesFindTheirSockets }
{}

/// A socket that was bound is found by the name that it was given.
pub fn bound_sockets_are_found()
    ensures { BoundSocketsAreFound }
{}

/// A bind changes no count, whatever the answer: a name holds nothing.
pub fn bind_changes_no_count()
    ensures { BindChangesNoCount }
{}

/// A listen changes no count, whatever the answer.
pub fn listen_changes_no_count()
    ensures { ListenChangesNoCount }
{}

/// A connect of a socket for connections makes a live embryo; the listener's backlog is its only
/// place.
pub fn connect_makes_an_embryo()
    ensures { ConnectMakesAnEmbryo }
{}

/// A connect of a socket for connections is one reference more to the embryo, and none to any other
/// file; nothing more is in flight.
pub fn connect_counts()
    ensures { ConnectCounts }
{}

/// A connect of a socket for connections charges nobody.
pub fn connect_charges_nobody()
    ensures { ConnectChargesNobody }
{}

/// An accept keeps all reference counts, that of the embryo too: a number takes the place of the
/// backlog.
pub fn accept_keeps_references()
    ensures { AcceptKeepsReferences }
{}

/// An accept removes the first embryo from the backlog, and keeps the others in order. Every other
/// file waits in as many backlog places as before.
pub fn accept_takes_the_first_embryo()
    ensures { AcceptTakesTheFirstEmbryo }
{}

/// The descriptor that an accept answers refers to the first embryo.
pub fn accepted_number_is_the_embryo()
    ensures { AcceptedNumberIsTheEmbryo }
{}

/// An embryo of a listener that is reached is reached (net/unix/garbage.c).
pub fn embryos_are_reached()
    ensures { EmbryosAreReached }
{}

/// So is what the embryo can receive, before it is accepted.
pub fn what_embryos_hold_is_reached()
    ensures { WhatEmbryosHoldIsReached }
{}
