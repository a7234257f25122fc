//! Laws of taking: what a receive takes from a queue, and what it leaves.
ghost use Rattle.af_laws.specs.Taking.{PacketKeepsBytes, PacketKeepsFiles, PacketTellsOfDrops};
ghost use Rattle.af_laws.specs.Taking.{StreamKeepsBytes, StreamKeepsFiles, StreamTakesAtMost};
ghost use Rattle.af_laws.specs.Taking.{StreamStopsAtFiles, FilesComeWithFirstByte, NoFilesFromNone};
ghost use Rattle.af_laws.specs.Taking.{ReceivesKeepBytes, ReceivesKeepFiles, OneByteAtATime};

/// A packet loses no byte but those that it drops, and leaves the messages behind it.
pub fn packet_keeps_bytes()
    ensures { PacketKeepsBytes }
{}

/// A packet loses no file: what is not taken is left.
pub fn packet_keeps_files()
    ensures { PacketKeepsFiles }
{}

/// A packet says that bytes were dropped exactly where some were.
pub fn packet_tells_of_drops()
    ensures { PacketTellsOfDrops }
{}

/// A stream loses no byte: what is not taken is left.
pub fn stream_keeps_bytes()
    ensures { StreamKeepsBytes }
{}

/// A stream loses no file, where each message has a byte.
pub fn stream_keeps_files()
    ensures { StreamKeepsFiles }
{}

/// A receive from a stream takes at most as many bytes as it was asked for.
pub fn stream_takes_at_most()
    ensures { StreamTakesAtMost }
{}

/// A receive from a stream takes no byte past the first message with files.
pub fn stream_stops_at_files()
    ensures { StreamStopsAtFiles }
{}

/// The files of that message come all at once, with its first byte, and not before it.
pub fn files_come_with_first_byte()
    ensures { FilesComeWithFirstByte }
{}

/// Where no message has files, none come.
pub fn no_files_from_none()
    ensures { NoFilesFromNone }
{}

/// Receives from a stream lose no byte and give none twice, however many bytes each asks for. What
/// they took and what is left are what was there.
pub fn receives_keep_bytes()
    ensures { ReceivesKeepBytes }
{}

/// Receives of either type lose no file and give none twice, where each message has a byte.
pub fn receives_keep_files()
    ensures { ReceivesKeepFiles }
{}

/// If each message of a stream has a byte, one receive equals as many receives of one byte as it
/// took bytes. They give the same bytes and files, and leave the same queue.
pub fn one_byte_at_a_time()
    ensures { OneByteAtATime }
{}
