//! Rows worked by hand, as tests of the definitions.
ghost use Rattle.af_laws.specs.Rows.{OneByteBringsTheFiles, BordersAreReadOver, FilesAreABarrier};
ghost use Rattle.af_laws.specs.Rows.{BytesBeforeComeAlone, PacketIsCut, SmallestCycle};
ghost use Rattle.af_laws.specs.Rows.{CycleIsCollected};

/// One byte of a message brings all its files.
pub fn one_byte_brings_the_files()
    ensures { OneByteBringsTheFiles }
{}

/// A stream is read over the borders of messages, up to the end of the first with files.
pub fn borders_are_read_over()
    ensures { BordersAreReadOver }
{}

/// It is not read past that end, though more was asked for.
pub fn files_are_a_barrier()
    ensures { FilesAreABarrier }
{}

/// Bytes before the files come without them.
pub fn bytes_before_come_alone()
    ensures { BytesBeforeComeAlone }
{}

/// A packet is cut to what was asked for, says so, and brings all its files.
pub fn packet_is_cut()
    ensures { PacketIsCut }
{}

/// The smallest cycle: four events lead to a socket in its own queue, garbage and charged for.
pub fn smallest_cycle()
    ensures { SmallestCycle }
{}

/// A whole pass after those of the smallest cycle counts one, frees it, and ends its charge.
pub fn cycle_is_collected()
    ensures { CycleIsCollected }
{}
