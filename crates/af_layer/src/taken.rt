//! Laws of logs that were taken one after the other.
ghost use Rattle.af_layer.specs.Taken.{TakenLogsAreOne, TakenPartsAreOne};

/// Logs that were taken one after the other, put together, are one legal log, from the machine at
/// which the first begins to that at which the last ends.
pub fn taken_logs_are_one()
    ensures { TakenLogsAreOne }
{}

/// A seat's part of these logs, put together, is its parts of each log, put together.
pub fn taken_parts_are_one()
    ensures { TakenPartsAreOne }
{}
