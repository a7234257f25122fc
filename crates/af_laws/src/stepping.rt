//! Laws of single steps of a process.
ghost use Rattle.af_laws.specs.Stepping.{ForkCopies, ExitTakesOneTable, ExitNeverFails};
ghost use Rattle.af_laws.specs.Stepping.{CloseNeverFails, Dup2ToItselfChangesNothing};
ghost use Rattle.af_laws.specs.Stepping.{SendIsChargedToItsSender};

/// A child has its parent's user, limit, privilege and table, as they were.
pub fn fork_copies()
    ensures { ForkCopies }
{}

/// An exit removes the process, and keeps each other process.
pub fn exit_takes_one_table()
    ensures { ExitTakesOneTable }
{}

/// A process that is there can always exit: there is no other answer.
pub fn exit_never_fails()
    ensures { ExitNeverFails }
{}

/// An open number can always be closed: there is no other answer.
pub fn close_never_fails()
    ensures { CloseNeverFails }
{}

/// A number put in place of itself changes nothing, whatever the answer (dup2(2)).
pub fn dup2_to_itself_changes_nothing()
    ensures { Dup2ToItselfChangesNothing }
{}

/// A send that nothing refuses is charged to the user of the process that sends, and to nobody
/// else. The charge is a place for each number that it names, repeats included.
pub fn send_is_charged_to_its_sender()
    ensures { SendIsChargedToItsSender }
{}
