//! Writing all of some bytes, by as many writes as it takes.
ghost use Rattle.std.specs.Prelude.{◌≡◌, OnOk, OnErr, true, false};
ghost use Rattle.std.specs.Io.KnownBytes.{Appends};
ghost use Rattle.scm_run.specs.Watched.{AppendsFront};

use crate::watched::Watched;
use std::io::Write;
use thiserror::Error;

/// A write failed, or took no byte of some.
#[derive(Clone, Copy, Debug, Error)]
#[error("writing failed")]
pub struct WriteFailed;

/// Writes all of the bytes, in as many writes as it takes; it does not flush.
///
/// No call on the writer may have failed before. `WriteFailed`: a write answered an error, or took
/// no byte of some; then a beginning of the bytes was written. Unlike `std::io::Write::write_all`,
/// it does not try an interrupted write again.
pub fn write_whole<W: Write>(writer: &mut Watched<W>, bytes: &[u8]) -> Result<(), WriteFailed>
    requires { writer.old.has_failed ≡ false }
    ensures ok { OnOk result
        (Appends (W.contents writer.old.inner) (W.contents writer.new.inner) bytes.now) }
    ensures ok_not_failed { OnOk result (writer.new.has_failed ≡ false) }
    ensures err { OnErr result
        (AppendsFront (W.contents writer.old.inner) (W.contents writer.new.inner) bytes.now) }
    ensures err_failed { OnErr result (writer.new.has_failed ≡ true) }
{
    let mut rest = bytes;
    while !rest.is_empty() {
        match writer.write(rest) {
            Ok(0) => return Err(WriteFailed),
            Ok(n) => rest = &rest[n..],
            Err(_) => return Err(WriteFailed),
        }
    }
    Ok(())
}
