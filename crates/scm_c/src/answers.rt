//! Replies as C sees them.
ghost use Rattle.std.specs.Prelude.{◌≡◌};
ghost use Rattle.scm_c.specs.Codes.{code_of, error_code};

use af_base::errno::Errno;
use af_base::events::Reply;

/// The handle has no engine: none was made, or it was freed.
pub(crate) const NO_ENGINE: i64 = -100;

/// Returns the answer of a refused call.
pub(crate) fn refusal(error: Errno) -> i64
    ensures { result ≡ error_code error }
{
    -i64::from(error.number())
}

/// Returns a reply as the number that a call answers.
pub(crate) fn code(reply: &Reply) -> i64
    ensures { result ≡ code_of reply.now }
{
    match reply {
        Reply::Pid(pid) => i64::from(pid.0),
        Reply::Fd(fd) => i64::from(fd.0),
        Reply::Sent(count) => i64::from(*count),
        Reply::Got { bytes, .. } => bytes.as_slice().len() as i64,
        Reply::Working => 1,
        Reply::Refused(error) => refusal(*error),
        Reply::Fds(..) | Reply::Ok | Reply::End | Reply::Started(_) | Reply::Done { .. } => 0,
    }
}
