//! The descriptors that go with a message, as the last words of a line list them.
ghost use Rattle.std.specs.Prelude.{◌≡◌, ◌≤◌, ◌<◌, ◌==◌, ◌++◌, [], IfErr, IfOk, IfSome, None};
ghost use Rattle.std.specs.Prelude.{OnOk, Some, length, position, replicate};
ghost use Rattle.std.specs.Option.{option_map};
ghost use Rattle.scm_lines.specs.Words.{words_of};
ghost use Rattle.scm_lines.specs.Attached.{item_of, attached_of};
ghost use Rattle.scm_lines.specs.declared.attached.TheConstants.{MAX_ATTACHED};
ghost use Rattle.scm_lines.specs.declared.fault.LineFault.TheVariants as fault;

use crate::fault::LineFault;
use crate::numbers::number;
use crate::words::first_word;
use af_base::ids::Fd;
use smallvec::SmallVec;
use std::alloc::{AllocError, Global};

/// The most descriptors of one item, and of all items of a line together.
pub const MAX_ATTACHED: usize = 1024;

/// The descriptors of a line. A few take no memory.
pub type Descriptors = SmallVec<Fd, 4>;

/// Returns the position of the first `*`.
pub fn star_at(word: &[u8]) -> Option<usize>
    ensures value { result ≡ position (λ b. b == 42) word.now }
    ensures within { IfSome result (λ i. i < length word.now) }
{
    word.iter().position(|b| *b == b'*')
}

/// Reads a descriptor, and how often it is named.
pub fn item(word: &[u8]) -> Option<(Fd, usize)>
    ensures value { option_map (λ found. replicate found.1 found.0) result ≡ item_of word.now }
    ensures few { IfSome result (λ found. found.1 ≤ MAX_ATTACHED) }
{
    // Most items are a number alone.
    if let Some(fd) = number(word) {
        return Some((Fd(fd), 1));
    }
    let at = star_at(word)?;
    let (front, _) = word.split_at(at);
    let (_, back) = word.split_at(at + 1);
    let fd = number(front)?;
    let copies = number(back)? as usize;
    if (1..=MAX_ATTACHED).contains(&copies) {
        Some((Fd(fd), copies))
    } else {
        None
    }
}

/// Appends copies of a descriptor.
#[inline(always)]
fn push_copies(fds: &mut Descriptors, fd: Fd, copies: usize) -> Result<(), AllocError>
    ensures { OnOk result (fds.new.items ≡ fds.old.items ++ replicate copies fd) }
{
    for _ in 0..copies {
        fds.push(fd)?;
    }
    Ok(())
}

/// Reads the descriptors of all items that are left into an empty list. The list never holds more
/// than a line may have.
#[tactic(auto, using(crate::proofs::AttachedLemmas::items_before_more, crate::proofs::AttachedLemmas::items_before_over))]
#[inline(always)]
fn read_items(fds: &mut Descriptors, bytes: &[u8]) -> Result<(), LineFault>
    requires { fds.old.items ≡ [] }
    ensures ok { OnOk result (attached_of (words_of bytes.now) ≡ Some fds.new.items) }
    ensures err { IfErr result
        (λ f. f ≡ fault.Unreadable → attached_of (words_of bytes.now) ≡ None) }
{
    let mut rest = bytes;
    while let Some((word, tail)) = first_word(rest) {
        let (fd, copies) = item(word).ok_or(LineFault::Unreadable)?;
        if fds.len() + copies > MAX_ATTACHED {
            return Err(LineFault::Unreadable);
        }
        push_copies(fds, fd, copies)?;
        rest = tail;
    }
    Ok(())
}

/// Reads the descriptors of all items that are left.
#[inline(always)]
pub fn attached(alloc: Global, bytes: &[u8]) -> Result<Descriptors, LineFault>
    ensures ok { IfOk result (λ fds. attached_of (words_of bytes.now) ≡ Some fds.items) }
    ensures err { IfErr result
        (λ f. f ≡ fault.Unreadable → attached_of (words_of bytes.now) ≡ None) }
{
    let mut fds = SmallVec::new(alloc);
    read_items(&mut fds, bytes)?;
    Ok(fds)
}
