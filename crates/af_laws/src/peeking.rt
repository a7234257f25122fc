//! Laws of a peek, and of a changed limit.
ghost use Rattle.af_laws.specs.Peeking.{PeekChangesNoQueue, PeekChangesNoCharge};
ghost use Rattle.af_laws.specs.Peeking.{PeekChangesNoFlight, PeekSeesWhatIsReceived};
ghost use Rattle.af_laws.specs.Peeking.{LimitClosesNothing};

/// A peek leaves every queue as it is, with all its files, whatever the answer.
pub fn peek_changes_no_queue()
    ensures { PeekChangesNoQueue }
{}

/// A peek changes no user's charge.
pub fn peek_changes_no_charge()
    ensures { PeekChangesNoCharge }
{}

/// A peek changes no file's in-flight count.
pub fn peek_changes_no_flight()
    ensures { PeekChangesNoFlight }
{}

/// After a peek, a receive or another peek gives what it would have given before: the same bytes
/// and files.
pub fn peek_sees_what_is_received()
    ensures { PeekSeesWhatIsReceived }
{}

/// A changed limit closes nothing: each descriptor refers to the same file, whatever the reply.
pub fn limit_closes_nothing()
    ensures { LimitClosesNothing }
{}
