//! Marks the files that a file holds, or is about to lose. A mark is kept in the row of its file,
//! so each held file is looked up anew.
ghost use Rattle.std.specs.Prelude.{◌≡◌, ◌≤◌, ◌*◌, [], drop, length, slice_get, take};
ghost use Rattle.std.specs.Option.{option_map_or};
ghost use Rattle.af_base.specs.Places.{attached_in, backlog_at, held_by, queue_at};
ghost use Rattle.af_collect.specs.Keeping.{first_held, shaded_all, shaded_in};
ghost use Rattle.af_desc.specs.Holding.{IsContents};
ghost use Rattle.af_collect.specs.StoreView.{Shades, first_attached};

use crate::holdings::Holdings;
use crate::progress::{PassProgress, Stage};
use af_base::ids::FileRef;
use af_base::limits::{MAX_MESSAGES, SCM_MAX_FD};
use af_desc::{Contents, Files};
use af_queue::BATCH;
use arrayvec::ArrayVec;

/// Marks the files that were taken out of a queue, while marking.
pub fn shade_taken(progress: &PassProgress, files: &mut Files, taken: &[FileRef])
    ensures { files.new
        ≡ record files.old { marks = shaded_in progress.now.stage taken.now files.old.marks } }
{
    if matches!(progress.stage, Stage::Marking) {
        shade_all(files, taken);
    }
}

/// Marks these files.
fn shade_all(files: &mut Files, taken: &[FileRef])
    ensures { files.new ≡ record files.old { marks = shaded_all taken.now files.old.marks } }
{
    for file in taken {
        files.shade(file);
    }
}

/// Marks all that the file holds, given its contents by one look.
#[inline(always)]
pub fn shade_contents(holdings: &mut Holdings, file: &FileRef, contents: &Contents)
    requires { IsContents contents.now (held_by holdings.old.world file.now) }
    ensures { Shades (held_by holdings.old.world file.now) holdings.old holdings.new }
{
    match contents {
        Contents::Nothing => {}
        Contents::One(held) => holdings.shade(held),
        Contents::Several => shade_held(holdings, file),
    }
}

/// Marks all that the file holds.
#[tactic(auto, using(crate::proofs::LostFiles::held_parts, crate::proofs::ShadedMarks::shaded_append))]
#[inline(never)]
pub fn shade_held(holdings: &mut Holdings, file: &FileRef)
    ensures { Shades (held_by holdings.old.world file.now) holdings.old holdings.new }
{
    shade_queue(holdings, file);
    shade_backlog(holdings, file);
}

/// Marks the files attached to the messages of the file's queue.
#[tactic(auto, using(crate::proofs::FileContents::carried_one))]
#[inline(always)]
fn shade_queue(holdings: &mut Holdings, file: &FileRef)
    ensures { Shades
        (attached_in (queue_at holdings.old.world file.now)) holdings.old holdings.new }
{
    // Most queues have one message at most.
    if messages(holdings, file) <= 1 {
        shade_message(holdings, file);
    } else {
        shade_attached(holdings, file);
    }
}

/// Marks the files attached to the messages of a longer queue, 16 at a time: the queue cannot stay
/// lent while marks change.
#[inline(never)]
fn shade_attached(holdings: &mut Holdings, file: &FileRef)
    ensures { Shades
        (attached_in (queue_at holdings.old.world file.now)) holdings.old holdings.new }
{
    let mut from = 0;
    loop {
        let held = attached_from(holdings, file, from);
        let held = held.as_slice();
        shade_all(&mut holdings.files, held);
        if held.len() < BATCH {
            return;
        }
        from += BATCH;
    }
}

/// Marks the embryos of the file's backlog.
#[tactic(auto, using(crate::proofs::FileContents::rest_next, crate::proofs::ShadedMarks::shaded_append))]
#[inline(always)]
fn shade_backlog(holdings: &mut Holdings, file: &FileRef)
    ensures { Shades (backlog_at holdings.old.world file.now) holdings.old holdings.new }
{
    for at in 0..embryos(holdings, file) {
        shade_embryo(holdings, file, at);
    }
}

/// Marks the files attached to the first message of the file's queue.
#[inline(always)]
fn shade_message(holdings: &mut Holdings, file: &FileRef)
    ensures { Shades (first_attached holdings.old.world file.now) holdings.old holdings.new }
{
    for index in 0..first_attached(holdings, file).len() {
        let held = first_attached(holdings, file)[index].duplicate();
        holdings.shade(&held);
    }
}

/// Marks the files that the file would lose first: those of its first message, or else its first
/// embryo.
#[tactic(auto, using(crate::proofs::FileContents::carried_first))]
pub fn shade_first(holdings: &mut Holdings, file: &FileRef)
    ensures { Shades (first_held holdings.old.world file.now) holdings.old holdings.new }
{
    if messages(holdings, file) > 0 {
        shade_message(holdings, file);
    } else {
        shade_embryo(holdings, file, 0);
    }
}

/// Marks the embryo at this position of the file's backlog, if there is one.
#[tactic(auto, using(crate::proofs::FileContents::first_left, crate::proofs::FileContents::none_left))]
#[inline(always)]
pub fn shade_embryo(holdings: &mut Holdings, file: &FileRef, at: usize)
    ensures { Shades
        (take 1 (drop at (backlog_at holdings.old.world file.now))) holdings.old holdings.new }
{
    if let Some(embryo) = embryo_at(holdings, file, at) {
        holdings.shade(&embryo);
    }
}

/// Returns how many messages the file's queue has.
#[inline(always)]
fn messages(holdings: &Holdings, file: &FileRef) -> usize
    ensures { result ≡ length (queue_at holdings.now.world file.now) }
{
    match holdings.socket(file) {
        Some(socket) => socket.queue().len(),
        None => 0,
    }
}

/// Returns how many embryos wait at the file.
#[inline(always)]
fn embryos(holdings: &Holdings, file: &FileRef) -> usize
    ensures { result ≡ length (backlog_at holdings.now.world file.now) }
{
    match holdings.socket(file) {
        Some(socket) => socket.embryos(),
        None => 0,
    }
}

/// Returns the files attached to the messages of the file's queue, from this position among them
/// on: 16 at most.
#[inline(always)]
fn attached_from(holdings: &Holdings, file: &FileRef, from: usize) -> ArrayVec<FileRef, BATCH>
    ensures files { result.items
        ≡ take BATCH (drop from (attached_in (queue_at holdings.now.world file.now))) }
    ensures few { length (attached_in (queue_at holdings.now.world file.now))
        ≤ MAX_MESSAGES * SCM_MAX_FD }
{
    match holdings.socket(file) {
        Some(socket) => socket.queue().attached_from(from),
        None => ArrayVec::new(),
    }
}

/// Returns the files attached to the first message of the file's queue.
#[inline(always)]
fn first_attached<'a>(holdings: &'a Holdings, file: &FileRef) -> &'a [FileRef]
    ensures { result.now ≡ first_attached holdings.now.world file.now }
{
    let Some(socket) = holdings.socket(file) else {
        return &[];
    };
    match socket.queue().first() {
        Some(message) => message.attached(),
        None => &[],
    }
}

/// Returns the embryo at this position of the file's backlog, if there is one.
#[inline(always)]
fn embryo_at(holdings: &Holdings, file: &FileRef, at: usize) -> Option<FileRef>
    ensures { result ≡ slice_get (backlog_at holdings.now.world file.now) at }
{
    let embryo = holdings.socket(file)?.backlog()?.files().get(at)?;
    Some(embryo.duplicate())
}
