//! A reader or a writer that remembers failures.
ghost use Rattle.std.specs.Prelude.{◌≡◌, ◌||◌, false, is_err};
ghost use Rattle.std.specs.Io.{ReadsAtMost, WritesAtMost};
ghost use Rattle.std.specs.Io.KnownBytes.{Keeps, ReadConsumes, WriteAppends};
ghost use Rattle.scm_run.specs.WatchedView.{WatchedView};
ghost use Rattle.scm_run.specs.Watched.{is_failed_read, is_failed_write};

use std::io;
use std::io::{Read, Write};
use std::marker::Model;

/// A reader or a writer, and whether a call on it has failed.
///
/// Each call is handed on, and answers what the inner one answers.
#[derive(Drop)]
pub struct Watched<T> {
    inner: T,
    has_failed: bool,
}

impl<T> Model for Watched<T> {
    ghost Value = { WatchedView T };

    ghost view = { λ w. record { inner = w.inner; has_failed = w.has_failed } };
}

impl<T> Watched<T> {
    /// Watches a reader or a writer from here on.
    pub fn new(inner: T) -> Self
        ensures inner { result.inner ≡ inner }
        ensures fresh { result.has_failed ≡ false }
    {
        Watched {
            inner,
            has_failed: false,
        }
    }

    /// Returns the reader or the writer.
    pub fn inner(&self) -> &T
        ensures { result.now ≡ self.now.inner }
    {
        &self.inner
    }

    /// Returns whether a call has failed, or a write took no byte of some.
    pub fn failed(&self) -> bool
        ensures { result ≡ self.now.has_failed }
    {
        self.has_failed
    }
}

impl<R: Read> Read for Watched<R> {
    ghost remaining = { λ w. R.remaining w.inner };

    fn read(&mut self, buf: &mut [u8]) -> io::Result<usize>
        ensures bound { ReadsAtMost result buf.new }
        ensures bytes { ReadConsumes (R.remaining self.old.inner)
            (R.remaining self.new.inner) result buf.new }
        ensures failed { self.new.has_failed ≡ (self.old.has_failed || is_failed_read result) }
    {
        let answer = self.inner.read(buf);
        if answer.is_err() {
            self.has_failed = true;
        }
        answer
    }
}

/// Returns whether a write of these bytes failed, or took none of some.
fn is_failed_write(answer: &io::Result<usize>, buf: &[u8]) -> bool
    ensures { result ≡ is_failed_write answer.now buf.now }
{
    match answer {
        Ok(written) => *written == 0 && !buf.is_empty(),
        Err(_) => true,
    }
}

impl<W: Write> Write for Watched<W> {
    ghost contents = { λ w. W.contents w.inner };

    fn write(&mut self, buf: &[u8]) -> io::Result<usize>
        ensures bound { WritesAtMost result buf.now }
        ensures bytes { WriteAppends (W.contents self.old.inner)
            (W.contents self.new.inner) result buf.now }
        ensures failed { self.new.has_failed
            ≡ (self.old.has_failed || is_failed_write result buf.now) }
    {
        let answer = self.inner.write(buf);
        if is_failed_write(&answer, buf) {
            self.has_failed = true;
        }
        answer
    }

    fn flush(&mut self) -> io::Result<()>
        ensures bytes { Keeps (W.contents self.old.inner) (W.contents self.new.inner) }
        ensures failed { self.new.has_failed ≡ (self.old.has_failed || is_err result) }
    {
        let answer = self.inner.flush();
        if answer.is_err() {
            self.has_failed = true;
        }
        answer
    }
}
