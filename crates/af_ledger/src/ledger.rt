//! The charges of users.
ghost use Rattle.std.specs.Prelude.{◌≡◌, ℕ, ◌+◌, ◌≤◌, ◌-◌, ◌^◌, [], None, Some, IsTrue, IsOk};
ghost use Rattle.std.specs.Prelude.{IfErr, IfSome, OnOk, OnErr, length, nat_eq, option_map};
ghost use Rattle.std.specs.Prelude.{slice_get};
ghost use Rattle.std.specs.Map.{keys_of, lookup, set_value};
ghost use Rattle.af_ledger.specs.Tally.{charge_in, is_user, recharged, with_user};
ghost use Rattle.af_ledger.specs.Sending.{send_refusal};

use af_base::errno::Errno;
use af_base::ids::Uid;
use af_base::limits::MAX_INFLIGHT;
use indexmap::IndexMap;
use std::alloc::{AllocError, Global};
use std::marker::Model;

/// The users in the order in which they came, each with what it is charged: one unit for each place
/// in a queue. A user is never removed.
#[derive(Drop)]
pub struct Ledger {
    users: IndexMap<Uid, u64>,
    /// The index of the user whose charge changed last: a hint.
    last: usize,
    total: u64,
}

impl Model for Ledger {
    ghost use Rattle.std.specs.Coded.{codes};
    ghost use Rattle.af_ledger.specs.Tally.{LedgerView};

    ghost Value = { LedgerView };

    ghost coded = { Prim.hlevel codes };

    ghost view = { λ a. record { users = a.users.entries; total = a.total } };
}

impl Ledger {
    /// Makes a ledger without users. Takes no memory.
    pub fn new(alloc: Global) -> Ledger
        ensures users { result.users ≡ [] }
        ensures total { result.total ≡ 0 }
    {
        Ledger {
            users: IndexMap::new(alloc),
            last: 0,
            total: 0,
        }
    }

    /// Returns the charge of a user: one unit for each place in a queue, and 0 for an unknown user.
    pub fn charged(&self, uid: Uid) -> u64
        ensures { result ≡ charge_in self.now.users uid }
    {
        match self.find(uid) {
            Some((_, charge)) => charge,
            None => 0,
        }
    }

    /// Returns the index and the charge of a user, if it is known. The user whose charge changed
    /// last needs no search.
    #[inline(always)]
    fn find(&self, uid: Uid) -> Option<(usize, u64)>
        ensures charge { option_map (λ found. found.1) result ≡ lookup (nat_eq uid) self.now.users }
        ensures place { IfSome result (λ found.
            slice_get self.now.users found.0 ≡ Some (uid, found.1)) }
    {
        if let Some((user, charge)) = self.users.get_index(self.last)
            && *user == uid
        {
            return Some((self.last, *charge));
        }
        let (index, _, charge) = self.users.get_full(&uid)?;
        Some((index, *charge))
    }

    /// Sets the charge of the user at `index`, which becomes the hint.
    #[inline(always)]
    fn set_charge(&mut self, index: usize, charge: u64)
        ensures { (uid was : ℕ) → slice_get self.old.users index ≡ Some (uid, was)
            → self.new ≡ record self.old { users = set_value (nat_eq uid) self.old.users charge } }
    {
        self.last = index;
        let Some(place) = self.users.get_index_mut(index) else {
            return;
        };
        *place = charge;
    }

    /// Returns the charge of all users together, in the same units.
    pub fn total(&self) -> u64
        ensures { result ≡ self.now.total }
    {
        self.total
    }

    /// Returns how many users there are.
    pub fn users(&self) -> usize
        ensures { result ≡ length (keys_of self.now.users) }
    {
        self.users.len()
    }

    /// Returns user `i`, counted from 0 in the order in which they were added, if there is one.
    pub fn user_at(&self, i: usize) -> Option<Uid>
        ensures { result ≡ slice_get (keys_of self.now.users) i }
    {
        let (uid, _) = self.users.get_index(i)?;
        Some(*uid)
    }

    /// Returns whether a user may send `files` more files, by a process with this limit and
    /// privilege. Fails with ETOOMANYREFS if the user, without privilege, is charged more than the
    /// limit already, and else with ENOBUFS if too many would be in flight (unix(7)). A message
    /// without files never fails with ETOOMANYREFS.
    #[inline(always)]
    pub fn may_send(
        &self,
        uid: Uid,
        limit: u32,
        privileged: bool,
        files: usize,
    ) -> Result<(), Errno>
        ensures ok { OnOk result (send_refusal self.now uid limit privileged files ≡ None) }
        ensures err { IfErr result (λ e.
            send_refusal self.now uid limit privileged files ≡ Some e) }
    {
        if files > 0 && !privileged && self.charged(uid) > u64::from(limit) {
            return Err(Errno::ETOOMANYREFS);
        }
        if self.total.saturating_add(files as u64) > MAX_INFLIGHT {
            return Err(Errno::ENOBUFS);
        }
        Ok(())
    }

    /// Adds a user at the end, with no charge, if it is new. A known user needs no memory. On an
    /// error nothing has changed.
    #[tactic(auto, using(crate::proofs::Users::user_changes))]
    pub fn add_user(&mut self, uid: Uid) -> Result<(), AllocError>
        ensures ok { OnOk result
            (self.new ≡ record self.old { users = with_user uid self.old.users }) }
        ensures err { OnErr result (self.new ≡ self.old) }
        ensures known { IsTrue (is_user uid self.old.users) → IsOk result }
    {
        if self.users.contains_key(&uid) {
            return Ok(());
        }
        self.users.insert(uid, 0)?;
        Ok(())
    }

    /// Raises the charge of a known user by `units`. Takes no memory.
    #[inline(always)]
    #[tactic(auto, using(crate::proofs::Users::user_changes))]
    pub fn charge(&mut self, uid: Uid, units: u64)
        requires charge { charge_in self.old.users uid + units ≤ 2 ^ 63 }
        requires total { self.old.total + units ≤ 2 ^ 63 }
        ensures { self.new ≡ record {
          users = recharged (λ n. n + units) uid self.old.users;
          total = self.old.total + units;
        } }
    {
        self.total += units;
        if let Some((index, charge)) = self.find(uid) {
            self.set_charge(index, charge + units);
        }
    }

    /// Lowers the charge of a user by `units`; it is at least as many. Takes no memory.
    #[inline(always)]
    #[tactic(auto, using(crate::proofs::Users::user_changes))]
    pub fn uncharge(&mut self, uid: Uid, units: u64)
        requires charge { units ≤ charge_in self.old.users uid }
        requires total { units ≤ self.old.total }
        ensures { self.new ≡ record {
          users = recharged (λ n. n - units) uid self.old.users;
          total = self.old.total - units;
        } }
    {
        self.total -= units;
        if let Some((index, charge)) = self.find(uid) {
            self.set_charge(index, charge - units);
        }
    }
}
