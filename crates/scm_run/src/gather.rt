//! The text of lines that were done, gathered until it is written.
ghost use Rattle.std.specs.Prelude.{◌≡◌, ℕ, ◌≤◌, ◌+◌, [], Err, IfErr, OnOk, OnErr, vec_capacity};
ghost use Rattle.std.specs.Prelude.{vec_len, false, is_err};
ghost use Rattle.std.specs.Io.KnownBytes.{Appends};
ghost use Rattle.scm_run.specs.Watched.{AppendsFront};
ghost use Rattle.scm_run.specs.Gather.{MoveStops, WritesBeforeFault, WritesFront};
ghost use Rattle.scm_run.specs.Script.{is_read_fault, is_write_fault};

use crate::fault::RunFault;
use crate::text::MAX_REPLY_LINE;
use crate::watched::Watched;
use crate::writes::{WriteFailed, write_whole};
use std::io::Write;

/// Gathered text is written once it has more than `GATHERED` bytes, and before each read.
const GATHERED: usize = 65_536;

/// Writes what is gathered.
pub fn write_out<W: Write>(text: &mut Vec<u8>, writer: &mut Watched<W>) -> Result<(), WriteFailed>
    requires { writer.old.has_failed ≡ false }
    ensures ok { OnOk result
        (Appends (W.contents writer.old.inner) (W.contents writer.new.inner) (text.old.items)) }
    ensures empty { OnOk result (text.new.items ≡ []) }
    ensures err { OnErr result (AppendsFront (W.contents writer.old.inner)
        (W.contents writer.new.inner) (text.old.items)) }
    ensures failed { writer.new.has_failed ≡ is_err result }
{
    write_whole(writer, text.as_slice())?;
    text.clear();
    Ok(())
}

/// Makes room for the text of any reply. Where there is too little, it writes what is gathered.
///
/// A run reserves this room once. Only a long report makes it grow.
pub fn make_room<W: Write>(text: &mut Vec<u8>, writer: &mut Watched<W>) -> Result<(), RunFault>
    requires { writer.old.has_failed ≡ false }
    ensures ok { OnOk result (WritesFront text.old.items text.new.items
        (W.contents writer.old.inner) (W.contents writer.new.inner)) }
    ensures room { OnOk result (vec_len text.new + MAX_REPLY_LINE ≤ vec_capacity text.new) }
    ensures err { IfErr result (MoveStops text.old.items text.new.items
        (W.contents writer.old.inner) (W.contents writer.new.inner)) }
    ensures write { writer.new.has_failed ≡ is_write_fault result }
    ensures no_read { is_read_fault result ≡ false }
{
    if text.capacity() - text.len() < MAX_REPLY_LINE {
        write_out(text, writer)?;
        text.reserve(GATHERED + MAX_REPLY_LINE)?;
    }
    Ok(())
}

/// Writes what is gathered before a fault is answered. Returns that fault, or `Write` where this
/// fails. After a fault of the writer it writes nothing.
pub fn write_before_fault<W: Write>(
    text: &mut Vec<u8>,
    fault: RunFault,
    writer: &mut Watched<W>,
) -> RunFault
    requires { writer.old.has_failed ≡ is_write_fault {A = ℕ} (Err fault) }
    ensures text { WritesBeforeFault fault result text.old.items (W.contents writer.old.inner)
        (W.contents writer.new.inner) }
    ensures write { writer.new.has_failed ≡ is_write_fault {A = ℕ} (Err result) }
    ensures no_read { is_read_fault {A = ℕ} (Err fault) ≡ false
        → is_read_fault {A = ℕ} (Err result) ≡ false }
{
    if fault == RunFault::Write {
        return fault;
    }
    match write_out(text, writer) {
        Ok(()) => fault,
        Err(WriteFailed) => RunFault::Write,
    }
}
