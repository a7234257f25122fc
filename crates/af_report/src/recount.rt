//! An independent recount of an engine.
ghost use Rattle.std.specs.Prelude.{◌≡◌, IfOk, IfSome, IsSome, string_bytes};
ghost use Rattle.std.specs.List.{All};
ghost use Rattle.std.specs.Prelude as list;
ghost use Rattle.std.specs.FinMap as map;
ghost use Rattle.af_plain.specs.Agreement.{AreRecounts, IsFileRecount, IsUserRecount};
ghost use Rattle.af_report.specs.Check.{IsChecked, IsCheckText, check_text};

use crate::agreed::Agreed;
use af_base::ids::Ino;
use af_plain::{Kept, KeptFile, KeptUser, garbage};
use af_steps::Engine;
use std::alloc::{AllocError, Global};
use std::marker::Model;

/// Returns the numbers that the engine keeps of each live file, by rising inode number.
fn kept_files(alloc: Global, engine: &Engine) -> Result<Vec<KeptFile>, AllocError>
    ensures recounts { IfOk result (λ files. All (IsFileRecount engine.now.world) files.items) }
    ensures all { IfOk result (λ files.
        list.map (λ k. k.ino) files.items ≡ map.keys engine.now.world.files) }
{
    // No file has the number 0: that is what a sound world says of it.
    engine.lemma_is_sound();
    let mut files = Vec::new(alloc);
    let mut last = Ino(0);
    let mut order_hint = 0;
    while let Some((file, at)) = engine.next_file(last, order_hint) {
        files.push(KeptFile {
            ino: file.ino(),
            refs: engine.refs_at(&file),
            inflight: engine.inflight_at(&file),
        })?;
        last = file.ino();
        order_hint = at;
    }
    Ok(files)
}

/// Returns the number that the engine keeps of each user, in the order of their first process.
fn kept_users(alloc: Global, engine: &Engine) -> Result<Vec<KeptUser>, AllocError>
    ensures recounts { IfOk result (λ users. All (IsUserRecount engine.now.world) users.items) }
    ensures all { IfOk result (λ users.
        list.map (λ k. k.user) users.items ≡ engine.now.world.users) }
{
    let mut users = Vec::new(alloc);
    for i in 0..engine.users() {
        let user = engine.user_at(i).unwrap();
        users.push(KeptUser {
            user,
            charged: engine.charged(user),
        })?;
    }
    Ok(users)
}

/// Returns all counts that the engine keeps.
fn kept_counts(alloc: Global, engine: &Engine) -> Result<Kept, AllocError>
    ensures recounts { IfOk result (AreRecounts engine.now.world) }
    ensures files { IfOk result (λ k.
        list.map (λ f. f.ino) k.files.items ≡ map.keys engine.now.world.files) }
    ensures users { IfOk result (λ k.
        list.map (λ u. u.user) k.users.items ≡ engine.now.world.users) }
{
    Ok(Kept {
        files: kept_files(alloc, engine)?,
        users: kept_users(alloc, engine)?,
        total: engine.total(),
    })
}

/// The result of a check. A contract sees it as the numbers of live files and of garbage files.
#[derive(Drop)]
pub struct Checked {
    agreed: Agreed,
    garbage: usize,
}

impl Model for Checked {
    ghost use Rattle.std.specs.Prelude.{ℕ};

    ghost Value = { ℕ × ℕ };

    ghost view = { λ c. (c.agreed, c.garbage) };
}

impl Checked {
    /// Returns how many files are live.
    pub fn live(&self) -> usize
        ensures { result ≡ self.now.0 }
    {
        self.agreed.files()
    }

    /// Returns how many of them no chain of places reaches from any table.
    pub fn garbage(&self) -> usize
        ensures { result ≡ self.now.1 }
    {
        self.garbage
    }
}

/// Counts the live files and the garbage. Compares each number that the engine keeps, of live
/// files, of users and in all, with its recount over plain lists. `None` says that one differs,
/// which no engine gives.
pub fn count(alloc: Global, engine: &Engine) -> Result<Option<Checked>, AllocError>
    ensures agree { IfOk result IsSome }
    ensures counts { IfOk result (λ found. IfSome found (λ c. IsChecked engine.now.world c.0 c.1)) }
{
    let listing = engine.listing()?;
    let kept = kept_counts(alloc, engine)?;
    let Some(agreed) = Agreed::of(&listing, &kept) else {
        return Ok(None);
    };
    let garbage = garbage(alloc, &listing)?;
    Ok(Some(Checked {
        agreed,
        garbage: garbage.len(),
    }))
}

/// Writes the line of a check.
fn check_line(alloc: Global, checked: &Checked) -> Result<String, AllocError>
    ensures { IfOk result (λ line. string_bytes line ≡ check_text checked.now.0 checked.now.1) }
{
    let files = checked.live();
    let garbage = checked.garbage();
    let mut line = String::new(alloc);
    writeln!(line, "check ok live {files} garbage {garbage}")?;
    Ok(line)
}

/// Writes the line of a check: how many files are live, and how many of them no chain of places
/// reaches from any table. If a kept count is no recount, which never happens, it says `check
/// failed`.
pub fn check(alloc: Global, engine: &Engine) -> Result<Vec<u8>, AllocError>
    ensures { IfOk result (λ text. IsCheckText engine.now.world text.items) }
{
    let Some(checked) = count(alloc, engine)? else {
        return b"check failed\n".to_vec(alloc);
    };
    let line = check_line(alloc, &checked)?;
    Ok(line.into_bytes())
}
