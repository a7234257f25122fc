//! A search for the reachable files: a list of files to look at, and the set of those found. There
//! is no recursion.
ghost use Rattle.std.specs.Prelude.{◌≡◌, ◌↔◌, ◌∷◌, ◌++◌, [], not, ℕ, List, map, IfOk, OnOk, true};
ghost use Rattle.std.specs.Prelude.{nat_eq};
ghost use Rattle.std.specs.List.{Contains, filter, find};
ghost use Rattle.std.specs.Ordering.{nat_cmp};
ghost use Rattle.std.specs.Option.{option_copied};
ghost use Rattle.std.specs.BTreeSet as tree;
ghost use Rattle.af_base.specs.Listing.{AreFiles, file_of, files_of};
ghost use Rattle.af_base.specs.Places.{InTable, contents, held_in};
ghost use Rattle.af_base.specs.Reached.{Reached, Garbage};
ghost use Rattle.af_plain.specs.Marking.{Marks, IsListOf};

use af_base::ids::Ino;
use af_base::listing::{ListedFile, ListedTable, Listing};
use std::alloc::{AllocError, Global};
use std::collections::BTreeSet;

/// The files that were found, and those among them that are still to be looked at.
#[derive(Drop)]
struct Marking {
    marked: BTreeSet<Ino>,
    ahead: Vec<Ino>,
}

impl Marking {
    /// Adds the file, which is to be looked at if it is new.
    fn mark(&mut self, ino: Ino) -> Result<(), AllocError>
        ensures { OnOk result (Marks self.old self.new (ino ∷ [])) }
    {
        if self.marked.insert(ino)? {
            self.ahead.push(ino)?;
        }
        Ok(())
    }

    /// Adds these files.
    fn mark_all(&mut self, inos: &[Ino]) -> Result<(), AllocError>
        ensures { OnOk result (Marks self.old self.new inos.now) }
    {
        for ino in inos {
            self.mark(*ino)?;
        }
        Ok(())
    }

    /// Adds the files of the table's descriptors.
    fn mark_numbers(&mut self, table: &ListedTable) -> Result<(), AllocError>
        ensures { OnOk result (Marks self.old self.new (map (λ n. n.ino) table.now.numbers.items)) }
    {
        for number in &table.numbers {
            self.mark(number.ino)?;
        }
        Ok(())
    }

    /// Adds the files that tables hold.
    fn mark_tables(&mut self, listing: &Listing) -> Result<(), AllocError>
        ensures { OnOk result ((held : List ℕ) × ((f : ℕ) → Contains held f ↔ InTable listing.now f)
            × Marks self.old self.new held) }
    {
        for table in listing.tables() {
            self.mark_numbers(table)?;
        }
        Ok(())
    }

    /// Adds the files that the file holds.
    fn mark_held(&mut self, file: &ListedFile) -> Result<(), AllocError>
        ensures { OnOk result (Marks self.old self.new (contents (file_of file.now))) }
    {
        let Some(socket) = &file.socket else {
            return Ok(());
        };
        for message in &socket.queue {
            self.mark_all(message.attached.as_slice())?;
        }
        self.mark_all(socket.backlog.as_slice())
    }

    /// Looks at the file: adds the files that it holds.
    fn look_at(&mut self, files: &[ListedFile], ino: Ino) -> Result<(), AllocError>
        requires { AreFiles files.now }
        ensures { OnOk result (Marks self.old self.new (held_in (files_of files.now) ino)) }
    {
        let Some(file) = listed_at(files, ino) else {
            return Ok(());
        };
        self.mark_held(file)
    }
}

/// Returns the file of that number.
fn listed_at(files: &[ListedFile], ino: Ino) -> Option<&ListedFile>
    requires { AreFiles files.now }
    ensures { option_copied result ≡ find (λ x. nat_eq ino x.ino) files.now }
{
    match files.binary_search_by_key(&ino.0, |file| file.ino.0) {
        Ok(at) => Some(&files[at]),
        Err(_) => None,
    }
}

/// Returns all files that a chain of places from a table reaches.
fn mark_reached(alloc: Global, listing: &Listing) -> Result<BTreeSet<Ino>, AllocError>
    ensures marked { IfOk result (λ s.
        (f : ℕ) → (tree.contains nat_cmp s f ≡ true) ↔ Reached listing.now f) }
    ensures ordered { IfOk result (tree.IsOrdered nat_cmp) }
{
    let mut marking = Marking {
        marked: BTreeSet::new(alloc),
        ahead: Vec::new(alloc),
    };
    marking.mark_tables(listing)?;
    let files = listing.files();
    while let Some(ino) = marking.ahead.pop() {
        marking.look_at(files, ino)?;
    }
    let Marking { marked, .. } = marking;
    // Read for the clause `ordered` alone: `len` says that the numbers rise.
    let _ = marked.len();
    Ok(marked)
}

/// Returns the files that a chain of places reaches, by rising inode number. The first place is in
/// a table, each later one in the queue or backlog of the socket before.
pub fn reached(alloc: Global, listing: &Listing) -> Result<Vec<Ino>, AllocError>
    ensures { IfOk result (λ xs. IsListOf (Reached listing.now) xs.items) }
{
    let marked = mark_reached(alloc, listing)?;
    marked.iter().copied().collect(alloc)
}

/// Appends the file, unless it is marked.
fn push_unmarked(found: &mut Vec<Ino>, marked: &BTreeSet<Ino>, ino: Ino) -> Result<(), AllocError>
    ensures { OnOk result (found.new.items
        ≡ found.old.items ++ filter (λ f. not (tree.contains nat_cmp marked.now f)) (ino ∷ [])) }
{
    if marked.contains(&ino) {
        return Ok(());
    }
    found.push(ino)?;
    Ok(())
}

/// Returns the live files, plain ones too, that no chain of places from a table reaches, by rising
/// inode number.
pub fn garbage(alloc: Global, listing: &Listing) -> Result<Vec<Ino>, AllocError>
    ensures { IfOk result (λ xs. IsListOf (Garbage listing.now) xs.items) }
{
    let marked = mark_reached(alloc, listing)?;
    let mut found = Vec::new(alloc);
    for file in listing.files() {
        push_unmarked(&mut found, &marked, file.ino)?;
    }
    Ok(found)
}
