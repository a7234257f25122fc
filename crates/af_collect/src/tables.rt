//! Descriptors of a process as places, many at once: a receive installs its files, and all open
//! descriptors are counted when a process starts by a fork, and dropped when it ends.
ghost use Rattle.std.specs.Prelude.{◌≡◌, ◌<◌, ◌+◌, ◌^◌, ℕ, IsTrue, Some, length, map as mapped};
ghost use Rattle.std.specs.List.{All, Contains, zip};
ghost use Rattle.std.specs.FinMap as map;
ghost use Rattle.af_base.specs.Changes.{add_process, remove_process};
ghost use Rattle.af_base.specs.World.{World};
ghost use Rattle.af_ledger.specs.Tally.{CanDropAll, LedgerView, count_in_map, kept_of, with_refs};
ghost use Rattle.af_ledger.specs.Tally.{without_refs};
ghost use Rattle.af_ledger.specs.declared.place.Place.TheVariants.{Queue};
ghost use Rattle.af_collect.specs.Agreement.{IsExact, Joins};
ghost use Rattle.af_collect.specs.HoldingsView.{filled};
ghost use Rattle.af_table.specs.Procs.{row_in};

use af_base::ids::{Fd, FileRef, Pid, Uid};
use af_desc::Files;
use af_ledger::{Ledger, Place};
use af_table::{Process, Procs};

/// Installs the files `attached` at the descriptors `fds` of a known process, in order, as long as
/// there are both. Each descriptor has room, and each file has counts.
#[inline(always)]
pub fn table_in_all(
    procs: &mut Procs,
    files: &mut Files,
    pid: Pid,
    fds: &[Fd],
    attached: &[FileRef],
)
    requires there { IsTrue (map.contains_key procs.old.processes pid) }
    requires row { All (λ n. n < row_in procs.old.rows pid) fds.now }
    requires known { (f : ℕ) → Contains attached.now f
        → IsTrue (map.contains_key files.old.counts f) }
    requires fits { (f : ℕ)
        → (count_in_map files.old.counts f).tabled + length attached.now < 2 ^ 21 }
    ensures processes { procs.new.processes
        ≡ filled procs.old.processes pid (zip fds.now attached.now) }
    ensures rows { procs.new.rows ≡ procs.old.rows }
    ensures next { procs.new.next_pid ≡ procs.old.next_pid }
    ensures kept { (c : LedgerView) → kept_of files.new.counts c ≡ with_refs Place.Table
        (mapped (λ e. e.1) (zip fds.now attached.now)) (kept_of files.old.counts c) }
    ensures rest { files.new ≡ record files.old { counts = files.new.counts } }
{
    if attached.is_empty() {
        return;
    }
    let process = procs.find_mut(pid).unwrap();
    for (fd, file) in fds.iter().zip(attached) {
        files.hold(&Place::Table, file);
        process.install(*fd, file.duplicate());
    }
}

/// Moves the files of a received message from a queue to the descriptors `fds` of a known process,
/// in order, as long as there are both. Drops the places of the other files, and the user's charge
/// for all. Each descriptor has room.
#[inline(always)]
pub fn receive_all(
    procs: &mut Procs,
    files: &mut Files,
    ledger: &mut Ledger,
    pid: Pid,
    fds: &[Fd],
    user: Uid,
    attached: &[FileRef],
)
    requires there { IsTrue (map.contains_key procs.old.processes pid) }
    requires row { All (λ n. n < row_in procs.old.rows pid) fds.now }
    requires fits { (f : ℕ)
        → (count_in_map files.old.counts f).tabled + length attached.now < 2 ^ 21 }
    requires queued { CanDropAll user attached.now (kept_of files.old.counts ledger.old) }
    ensures processes { procs.new.processes
        ≡ filled procs.old.processes pid (zip fds.now attached.now) }
    ensures rows { procs.new.rows ≡ procs.old.rows }
    ensures next { procs.new.next_pid ≡ procs.old.next_pid }
    ensures kept { kept_of files.new.counts ledger.new
        ≡ without_refs (Queue user) attached.now (with_refs Place.Table
        (mapped (λ e. e.1) (zip fds.now attached.now)) (kept_of files.old.counts ledger.old)) }
    ensures rest { files.new ≡ record files.old { counts = files.new.counts } }
{
    if attached.is_empty() {
        return;
    }
    ledger.uncharge(user, attached.len() as u64);
    let process = procs.find_mut(pid).unwrap();
    let mut free = fds.iter();
    for file in attached {
        let Some(fd) = free.next() else {
            files.drop_one(&Place::Queue(user), file);
            continue;
        };
        // A file that moves is referenced throughout.
        files.move_to_table(&Place::Queue(user), file);
        process.install(*fd, file.duplicate());
    }
}

/// Adds a reference for each open descriptor of a process that joins the world as a copy of one
/// that is there, so each file is held already. Takes no memory.
pub fn ref_table(files: &mut Files, process: &Process)
    requires { (w : World) × (c : LedgerView) × (pid : ℕ) × (map.get w.processes pid
        ≡ Some process.now.process) × Joins w process.now.process (kept_of files.old.counts c) }
    ensures exact { (w : World) (c : LedgerView)
        → Joins w process.now.process (kept_of files.old.counts c)
        → IsExact (add_process w process.now.process) (kept_of files.new.counts c) }
    ensures rest { files.new ≡ record files.old { counts = files.new.counts } }
{
    // Most tables have no gaps. A walk to zero costs least.
    let front = process.run_from(Fd(0));
    for number in (0..front.len()).rev() {
        files.hold_again(&Place::Table, &front[number]);
    }
    let mut from = Fd(front.len() as u32);
    while let Some((fd, file)) = process.next_open(from) {
        files.hold_again(&Place::Table, &file);
        from = Fd(fd.0 + 1);
    }
}

/// Drops a reference for each open descriptor of a process that leaves the world. Takes no memory.
pub fn unref_table(files: &mut Files, process: &Process)
    requires { (w : World) × (c : LedgerView) × (pid : ℕ) × (map.get w.processes pid
        ≡ Some process.now.process) × IsExact w (kept_of files.old.counts c) }
    ensures exact { (w : World) (c : LedgerView) (pid : ℕ)
        → map.get w.processes pid ≡ Some process.now.process
        → IsExact w (kept_of files.old.counts c)
        → IsExact (remove_process w pid) (kept_of files.new.counts c) }
    ensures rest { files.new ≡ record files.old { counts = files.new.counts } }
{
    // Most tables have no gaps. A walk to zero costs least.
    let front = process.run_from(Fd(0));
    for number in (0..front.len()).rev() {
        files.drop_one(&Place::Table, &front[number]);
    }
    let mut from = Fd(front.len() as u32);
    while let Some((fd, file)) = process.next_open(from) {
        files.drop_one(&Place::Table, &file);
        from = Fd(fd.0 + 1);
    }
}
