//! The front of a session.
ghost use Rattle.std.specs.Prelude.{◌≡◌, ◌<◌, ◌≤◌, ℕ, List, [], ◌∷◌, ◌++◌, true, false, IsTrue, length, IfOk, OnOk, OnErr, IsErrOf, Ok, Err};
ghost use Rattle.ccfs_base.specs.Fits.{fits_command};
ghost use Rattle.block_layout.specs.Sizes.{good_inodes};
ghost use Rattle.carried_volumes.specs.Plain.{IsPlain, IsDense};
ghost use Rattle.carried_volumes.specs.Carried.{HaveInodes};
ghost use Rattle.front_laws.specs.Kept.{IsKept, is_answered};
ghost use Rattle.front_laws.specs.Logging.{metadata_size};
ghost use Rattle.front_core.specs.Fronts.{new_front, next_entry, seals_of, waiting, IsActed};

use super::fault::ActFault;
use super::free::FreeInodes;
use super::pending::Pending;
use super::planning::{Plan, is_answered};
use super::state::State;
use block_layout::Geometry;
use ccfs_base::{Bytes, Command, NoMemory, Reply};
use cross_dep::KeyBook;
use file_bodies::Sealed;
use image_check::Inodes;
use shared_meta::SharedMeta;
use std::alloc::{AllocError, Global};
use std::marker::Model;
use stream_txn::Txns;
use tree_model::{Entry, Tree};

/// What a session did, and what of it isn't handed over yet.
#[derive(Drop)]
pub struct Front {
    geometry: Geometry,
    limit: u32,
    opening: Tree,
    state: State,
    history: Vec<Entry>,
    handed: u64,
}

impl Model for Front {
    ghost use Rattle.front_core.specs.Fronts.{Fronted, sizes_of};
    ghost use Rattle.front_core.specs.Codes.{fronted_code};
    ghost use Rattle.front_core.specs.Held.{IsFrontOf};

    ghost Value = { Fronted };

    ghost coded = { fronted_code };

    ghost view = { λ a. record { sizes = sizes_of a.geometry; limit = a.limit; opening = a.opening; entries = a.history.items; inodes = a.state.inodes.items; handed = a.handed } };

    ghost invariant = { λ a. IsFrontOf (sizes_of a.geometry) a.limit a.opening a.history.items a.handed a.state };
}

impl Front {
    /// The front of a session on this tree of opening, whose rows have these inodes, in order of serials, in an image of these sizes
    /// with this metadata. Its history may have so many calls.
    pub fn of(
        alloc: Global,
        tree: Tree,
        inodes: Inodes,
        geometry: &Geometry,
        metadata: Bytes,
        limit: u32,
    ) -> Result<Front, NoMemory>
        requires plain { IsPlain tree }
        requires have { HaveInodes geometry.now.inodes inodes tree }
        requires dense { IsDense tree (length inodes) }
        requires metadata { length metadata ≡ metadata_size geometry.now.inodes }
        requires limit { (1 ≤ limit) × (limit ≤ 1048576) }
        ensures { IfOk result (λ front. front ≡ new_front geometry.now limit tree inodes) }
    {
        let next = inodes.all().len() as u32;
        let state = State {
            tree: tree.copy(alloc)?,
            next,
            streams: [0; 64],
            inodes: Vec::from_slice(alloc, inodes.all())?,
            pending: Pending {
                meta: SharedMeta::of(metadata),
                txns: Txns::new(alloc),
                keys: KeyBook::new(alloc),
                free: FreeInodes::of(alloc, geometry.inodes, inodes.all())?,
            },
        };
        Ok(Front {
            geometry: *geometry,
            limit,
            opening: tree,
            state,
            history: Vec::new(alloc),
            handed: 0,
        })
    }

    /// Makes a call of an actor, and answers its reply. Where it is refused, all is as before: `HistoryFull` exactly where the history
    /// has as many calls as it may have, `NotBuilt` only for a command that isn't built, and `NoMemory`.
    pub fn act(&mut self, actor: u8, command: &Command) -> Result<Reply, ActFault>
        requires actor { actor < 64 }
        requires fits { IsTrue (fits_command command.now) }
        ensures acted { OnOk result (IsActed self.old actor command.now self.new) }
        ensures reply { IfOk result (λ reply. reply ≡ (next_entry self.old actor command.now).reply) }
        ensures built { OnOk result (is_answered command.now ≡ true) }
        ensures unbuilt { IsErrOf result ActFault.NotBuilt → is_answered command.now ≡ false }
        ensures full { (calls : ℕ) → IsErrOf result (ActFault.HistoryFull calls) → (length self.old.entries ≡ self.old.limit) × (calls ≡ self.old.limit) }
        ensures not_full { length self.old.entries ≡ self.old.limit → IsErrOf result (ActFault.HistoryFull self.old.limit) }
        ensures err { OnErr result (self.new ≡ self.old) }
    {
        if self.history.len() >= self.limit as usize {
            return Err(ActFault::HistoryFull { calls: self.limit });
        }
        if !is_answered(command) {
            return Err(ActFault::NotBuilt);
        }
        match self.call(actor, command) {
            Ok(reply) => Ok(reply),
            Err(AllocError) => Err(ActFault::NoMemory),
        }
    }

    /// Makes a call that is built and for which the history has room. Without memory all is as before.
    fn call(&mut self, actor: u8, command: &Command) -> Result<Reply, NoMemory>
        requires actor { actor < 64 }
        requires fits { IsTrue (fits_command command.now) }
        requires built { is_answered command.now ≡ true }
        requires room { length self.old.entries < self.old.limit }
        ensures acted { OnOk result (IsActed self.old actor command.now self.new) }
        ensures reply { IfOk result (λ reply. reply ≡ (next_entry self.old actor command.now).reply) }
        ensures err { OnErr result (self.new ≡ self.old) }
    {
        let alloc = *self.history.allocator();
        let plan = self.state.plan(alloc, &self.geometry, actor, command)?;
        let reply = plan.reply.copy()?;
        let copy = command.copy()?;
        self.history.reserve(1)?;
        self.state
            .make(alloc, &self.geometry, actor, command, &plan)?;
        let Plan {
            stream,
            reply: told,
            update,
            ..
        } = plan;
        self.history
            .push(Entry {
                actor,
                stream,
                command: copy,
                reply: told,
                update,
            })
            .unwrap();
        Ok(reply)
    }

    /// The calls so far, with their replies and updates, in order.
    pub fn history(&self) -> &[Entry]
        ensures { result.now ≡ self.now.entries }
    {
        self.history.as_slice()
    }

    /// The tree of opening.
    pub fn opening(&self) -> &Tree
        ensures { result.now ≡ self.now.opening }
    {
        &self.opening
    }

    /// The number of seals so far.
    pub fn seals(&self) -> u64
        ensures { result ≡ seals_of self.now }
    {
        self.state.pending.txns.seals()
    }

    /// The inode of each serial, those of rows that were dropped included.
    pub fn inodes(&self) -> &[u32]
        ensures { result.now ≡ self.now.inodes }
    {
        self.state.inodes.as_slice()
    }

    /// Hands out the batches that wait, in the order of their numbers, and leaves none. It takes no memory.
    pub fn take_sealed(&mut self) -> Vec<Sealed>
        ensures taken { result.items ≡ waiting self.old }
        ensures left { self.new ≡ record self.old { handed = seals_of self.old } }
    {
        let sealed = self.state.pending.txns.take_sealed();
        self.handed = self.state.pending.txns.seals();
        sealed
    }

    /// What a front keeps: a legal history on a tree of opening with empty files, whose rows have inodes of their own, each new one
    /// the lowest that was free.
    pub fn is_kept(&self)
        ensures kept { IsKept self.now.sizes self.now.opening self.now.inodes self.now.entries }
        ensures handed { self.now.handed ≤ seals_of self.now }
        ensures sizes { (blocks : ℕ) × (good_inodes blocks self.now.sizes.inodes ≡ true) }
        ensures few { length self.now.entries ≤ 1048576 }
    {
        let _ = &self.history;
    }
}
