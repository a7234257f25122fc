//! Laws of places and of their counts.
ghost use Rattle.af_laws.specs.Places.{HoldsInQueueOrBacklog, NoneWhereUnplaced, NoneWhereUntabled};
ghost use Rattle.af_laws.specs.Places.{NoneWhereNotInFlight, NoneWhereNotWaiting, ReferencesAddUp};
ghost use Rattle.af_laws.specs.Places.{InstallCounts, UninstallCounts, ReplaceCounts, ForkCounts};
ghost use Rattle.af_laws.specs.Places.{ExitCounts, ExitKeepsCharges, SendCounts, ReceiveCounts};
ghost use Rattle.af_laws.specs.Places.{SendCharges, ReceiveDischarges, GarbageCountsOnce};

/// A file held by a socket is in its queue or in its backlog.
pub fn holds_in_queue_or_backlog()
    ensures { HoldsInQueueOrBacklog }
{}

/// The reference count is zero exactly where no place holds the file.
pub fn none_where_unplaced()
    ensures { NoneWhereUnplaced }
{}

/// The tables' part of it is zero exactly where no table holds the file.
pub fn none_where_untabled()
    ensures { NoneWhereUntabled }
{}

/// The in-flight count is zero exactly where no queue holds the file.
pub fn none_where_not_in_flight()
    ensures { NoneWhereNotInFlight }
{}

/// The count of backlog places is zero exactly where no backlog holds the file.
pub fn none_where_not_waiting()
    ensures { NoneWhereNotWaiting }
{}

/// The reference count is what tables, queues and backlogs have of the file, each place counted
/// once.
pub fn references_add_up()
    ensures { ReferencesAddUp }
{}

/// A descriptor that is opened is one reference more to its file, and none to any other.
pub fn install_counts()
    ensures { InstallCounts }
{}

/// A descriptor that is closed is one reference less to its file, and to no other.
pub fn uninstall_counts()
    ensures { UninstallCounts }
{}

/// A dup2 to an open descriptor lowers the count of the old file by one, and raises that of the new
/// one by one. It keeps all others (dup2(2)).
pub fn replace_counts()
    ensures { ReplaceCounts }
{}

/// A child is as many references more to a file as the table that it copies has descriptors for it.
pub fn fork_counts()
    ensures { ForkCounts }
{}

/// An exit takes from a file as many references as the process's table had descriptors for it.
pub fn exit_counts()
    ensures { ExitCounts }
{}

/// An exit keeps the charges of messages, as long as they wait: before files are freed.
pub fn exit_keeps_charges()
    ensures { ExitKeepsCharges }
{}

/// A message that is sent is as many references more to a file, and as many more in flight, as it
/// carries the file.
pub fn send_counts()
    ensures { SendCounts }
{}

/// A message that is received whole gives back as many references as it carried, before they are
/// installed.
pub fn receive_counts()
    ensures { ReceiveCounts }
{}

/// A message that is sent is charged to the user that it names, a place for each file that it
/// carries, and to nobody else.
pub fn send_charges()
    ensures { SendCharges }
{}

/// A whole receive ends the message's charge to the user that it names, whoever receives it, and
/// keeps all other charges.
pub fn receive_discharges()
    ensures { ReceiveDischarges }
{}

/// There is one number of garbage sockets.
pub fn garbage_counts_once()
    ensures { GarbageCountsOnce }
{}
