//! The version of the library.
ghost use Rattle.std.specs.Prelude.{◌≡◌, pos};
ghost use Rattle.scm_c.specs.Codes.{version_number};

const MAJOR: u32 = 0;

const MINOR: u32 = 2;

const PATCH: u32 = 0;

/// Answers the version of the library that the program runs with, as JW_VERSION has that of the
/// header: the major number times 1000000, the minor number times 1000, and the patch. It needs no
/// engine.
#[must_use]
#[unsafe(no_mangle)]
pub extern "C" fn jw_version() -> i64
    ensures { result ≡ pos (version_number MAJOR MINOR PATCH) }
{
    i64::from(MAJOR * 1_000_000 + MINOR * 1_000 + PATCH)
}
