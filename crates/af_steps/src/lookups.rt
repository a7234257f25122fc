//! The look-ups of an event, before its own tests.
ghost use Rattle.std.specs.Prelude.{◌≡◌, ◌++◌, ◌∷◌, [], None, Some, false, IfErr, IfOk, OnOk};
ghost use Rattle.std.specs.Prelude.{◌<◌, IsOk, nat_lt, slice_get, true};
ghost use Rattle.std.specs.FinMap as map;
ghost use Rattle.af_base.specs.Places.{table_at};
ghost use Rattle.af_base.specs.Refusals.{at_socket, first_fit, is_full, on_number, on_process};
ghost use Rattle.af_base.specs.Refusals.{process_at, refusal};
ghost use Rattle.af_base.specs.Table.{free_numbers, lowest_free};
ghost use Rattle.af_collect.specs.StoreView.{room_at};
ghost use Rattle.af_steps.specs.Found.{HasDescriptor, HasProcess, HasSocket};

use af_base::errno::Errno;
use af_base::events::{SockType, Step};
use af_base::ids::{Fd, FileRef, Pid};
use af_collect::Store;
use af_desc::Socket;
use af_table::Process;
use std::alloc::AllocError;

/// Returns the lowest free descriptor of the process, for a new file; or why there is none.
#[inline(always)]
pub fn descriptor_for_file(store: &Store, pid: Pid) -> Result<Fd, Errno>
    ensures there { OnOk result (HasProcess store.now.world pid (process_at store.now.world pid)) }
    ensures lowest { IfOk result (λ fd.
        slice_get (free_numbers (process_at store.now.world pid)) 0 ≡ Some fd) }
    ensures room { OnOk result (is_full store.now.world 1 ≡ false) }
    ensures fits { OnOk result (refusal store.now.world pid Step.Open ≡ None) }
    ensures refused { IfErr result (λ e. refusal store.now.world pid Step.Open ≡ Some e) }
{
    let process = store.holdings().procs().find(pid).ok_or(Errno::ESRCH)?;
    let fd = process.lowest().ok_or(Errno::EMFILE)?;
    if store.holdings().files().is_full(1) {
        return Err(Errno::ENFILE);
    }
    Ok(fd)
}

/// Returns the two lowest free descriptors of the process, rising, for two new files; or why there
/// are none.
#[inline(always)]
pub fn descriptors_for_pair(store: &Store, pid: Pid) -> Result<(Fd, Fd), Errno>
    ensures there { OnOk result (HasProcess store.now.world pid (process_at store.now.world pid)) }
    ensures lowest { IfOk result (λ fds.
        lowest_free 2 (process_at store.now.world pid) ≡ fds.0 ∷ fds.1 ∷ []) }
    ensures room { OnOk result (is_full store.now.world 2 ≡ false) }
    ensures fits { OnOk result
        ((kind : SockType) → refusal store.now.world pid (Step.Pair kind) ≡ None) }
    ensures refused { IfErr result (λ e.
        (kind : SockType) → refusal store.now.world pid (Step.Pair kind) ≡ Some e) }
{
    let process = store.holdings().procs().find(pid).ok_or(Errno::ESRCH)?;
    let fds = process.lowest_two().ok_or(Errno::EMFILE)?;
    if store.holdings().files().is_full(2) {
        return Err(Errno::ENFILE);
    }
    Ok(fds)
}

/// Returns the process, and the file of its descriptor; or why there is none.
#[inline(always)]
pub fn file_on(store: &Store, pid: Pid, fd: Fd) -> Result<(&Process, FileRef), Errno>
    ensures found { IfOk result (λ found.
        HasDescriptor store.now.world pid found.0.now.process fd found.1) }
    ensures row { IfOk result (λ found. room_at store.now pid ≡ found.0.now.row) }
    ensures refused { IfErr result (λ e. first_fit (on_process
        (map.get store.now.world.processes pid) ++ on_number (table_at store.now.world pid fd))
        ≡ Some e) }
{
    let process = store.holdings().procs().find(pid).ok_or(Errno::ESRCH)?;
    let file = process.lookup(fd).ok_or(Errno::EBADF)?;
    Ok((process, file))
}

/// Returns the process, the file of its descriptor, and the socket that this is; or why there is
/// none.
#[inline(always)]
pub fn socket_on(store: &Store, pid: Pid, on: Fd) -> Result<(&Process, FileRef, Socket<'_>), Errno>
    ensures found { IfOk result (λ found.
        HasSocket store.now.world pid found.0.now.process on found.1 found.2) }
    ensures row { IfOk result (λ found. room_at store.now pid ≡ found.0.now.row) }
    ensures refused { IfErr result (λ e. first_fit (on_process
        (map.get store.now.world.processes pid) ++ at_socket store.now.world pid on) ≡ Some e) }
{
    let holdings = store.holdings();
    let process = holdings.procs().find(pid).ok_or(Errno::ESRCH)?;
    let file = process.lookup(on).ok_or(Errno::EBADF)?;
    let socket = holdings.socket(&file).ok_or(Errno::ENOTSOCK)?;
    Ok((process, file, socket))
}

/// Reserves room to install at `fd`, which is below the process's limit, unless `has_room` says
/// that there is room. No process can see a change, also on an error.
#[inline(always)]
pub fn make_room_at(store: &mut Store, pid: Pid, fd: Fd, has_room: bool) -> Result<(), AllocError>
    requires said { has_room ≡ nat_lt fd (room_at store.old pid) }
    requires limit { fd < (process_at store.old.world pid).limit }
    ensures world { store.new.world ≡ store.old.world }
    ensures pass { store.new.pass ≡ store.old.pass }
    ensures since { store.new.since ≡ store.old.since }
    ensures row { OnOk result (fd < room_at store.new pid) }
    ensures succeeds { has_room ≡ true → IsOk result }
{
    if has_room {
        return Ok(());
    }
    store.room_for(pid, 1)
}
