//! Lists of files, in no order.
ghost use Rattle.std.specs.Prelude.{◌≡◌, ◌<◌, ◌-◌, ℕ, Some, IfSome, IfNone, cond, false, length};
ghost use Rattle.std.specs.Prelude.{nat_eq, slice_get, slice_index_or, vec_capacity};
ghost use Rattle.af_base.specs.Counts.{count_in};

use crate::ids::{FileRef, Ino};

/// Returns the position of a file in the list, if it is there. Tries `at` first, and then all from
/// the end.
#[inline(always)]
fn place_of(files: &[FileRef], ino: Ino, at: usize) -> Option<usize>
    ensures some { IfSome result (λ i. slice_get files.now i ≡ Some ino) }
    ensures none { IfNone result
        ((k : ℕ) → k < length files.now → nat_eq (slice_index_or files.now k 0) ino ≡ false) }
{
    if let Some(file) = files.get(at)
        && file.ino() == ino
    {
        return Some(at);
    }
    files.iter().rposition(|file| file.ino() == ino)
}

/// Removes the file `ino` from the list once, if it is there; the last takes its place. Returns
/// that position. Tries `at` first, and then all from the end. Takes no memory.
#[inline(always)]
pub fn swap_remove_file(files: &mut Vec<FileRef>, ino: Ino, at: usize) -> Option<usize>
    ensures each { (f : ℕ) → count_in f files.new.items
        ≡ count_in f files.old.items - cond (nat_eq f ino) 1 0 }
    ensures place { IfSome result (λ i. slice_get files.old.items i ≡ Some ino) }
    ensures none { IfNone result (count_in ino files.old.items ≡ 0) }
    ensures capacity { vec_capacity files.new ≡ vec_capacity files.old }
{
    let at = place_of(files.as_slice(), ino, at)?;
    files.swap_remove(at);
    Some(at)
}
