//! What is kept of the unsealed updates: their records, sums, keys and free inodes.
ghost use Rattle.std.specs.Prelude.{◌≡◌, ◌≢◌, ℕ, ◌<◌, ◌+◌, ◌^◌, List, [], ◌∷◌, ◌++◌, true, false, length, OnOk, OnErr, slice_index_or, Bool};
ghost use Rattle.std.specs.List.{filter};
ghost use Rattle.tree_model.specs.declared.rows.Update.TheVariants.{Make};
ghost use Rattle.tree_model.specs.Rows.{Rows, IsTree};
ghost use Rattle.tree_model.specs.Updates.{apply, Fits};
ghost use Rattle.tree_cuts.specs.Calls.{Charge, Charged};
ghost use Rattle.shared_meta.specs.Area.{area};
ghost use Rattle.stream_cuts.specs.Forced.{streams};
ghost use Rattle.stream_txn.specs.Updates.{update_of};
ghost use Rattle.stream_txn.specs.Accounts.{account_at};
ghost use Rattle.cross_dep.specs.Books.{has_bit};
ghost use Rattle.carried_volumes.specs.Carried.{HaveInodes};
ghost use Rattle.update_records.specs.Built.{is_built, AreSerialsBelow};
ghost use Rattle.update_records.specs.Operations.{ops_of};
ghost use Rattle.front_laws.specs.Batches.{its_records};
ghost use Rattle.front_laws.specs.Inodes.{given_by, has};
ghost use Rattle.front_laws.specs.Logging.{MayLogAll};
ghost use Rattle.front_laws.specs.Owned.{AreOwned};
ghost use Rattle.front_core.specs.Free.{MakesTheLast, given_at};
ghost use Rattle.front_core.specs.Logged.{calls_of};
ghost use Rattle.front_core.specs.Pending.{IsPendingOf, IsHeld, IsDue, IsAsBefore, AreSealed};
ghost use Rattle.front_core.specs.Entering.{IsReadyFor, weight_kept};
ghost use Rattle.front_core.specs.declared.pending.Pending as of_pending;

use super::bits::{STREAMS, has_bit, with_bit};
use super::free::FreeInodes;
use super::logging::{log_all, room_for_all};
use ccfs_base::{NoMemory, Recs};
use cross_dep::KeyBook;
use file_bodies::BodyOps;
use shared_meta::SharedMeta;
use stream_txn::Txns;
use tree_model::Update;

/// What an update weighs, whose files are empty.
pub(crate) const WEIGHT: u32 = 512;

/// What is kept of the unsealed updates.
#[derive(Drop)]
pub(crate) struct Pending {
    /// Their records.
    pub meta: SharedMeta,
    /// Their sums and operations, and the batches that wait.
    pub txns: Txns,
    /// What they change and need.
    pub keys: KeyBook,
    /// The inodes that no row has and none of them gave up.
    pub free: FreeInodes,
}

/// An update that is about to enter a stream, as it is kept there.
#[derive(Drop)]
pub(crate) struct Entering {
    /// The stream.
    pub stream: u8,
    /// How many rows it gives up.
    pub gave_rows: u32,
    /// Its records.
    pub recs: Recs,
    /// Its operations on files.
    pub ops: BodyOps,
}

impl Pending {
    /// Makes the places for sealing a stream.
    fn reserve_at(&mut self, stream: u8) -> Result<(), NoMemory>
        requires { stream < 64 }
        ensures same { IsAsBefore self.old self.new }
        ensures placed { OnOk result ((account_at self.old.txns.accounts stream).is_open ≡ true → IsDue self.new stream) }
        ensures others { (r : ℕ) → IsDue self.old r → IsDue self.new r }
    {
        self.meta.reserve(stream)?;
        self.txns.reserve(stream)
    }

    /// Makes the places for sealing the streams whose bits are set.
    pub(crate) fn reserve(&mut self, sealed: u64) -> Result<(), NoMemory>
        ensures same { IsAsBefore self.old self.new }
        ensures placed { OnOk result ((s : ℕ) → s < 64 → has_bit sealed s ≡ true → (account_at self.old.txns.accounts s).is_open ≡ true → IsDue self.new s) }
    {
        for stream in 0..STREAMS {
            if has_bit(sealed, stream) {
                self.reserve_at(stream)?;
            }
        }
        Ok(())
    }

    /// The streams that have an unsealed update: bit s is set for stream s.
    pub(crate) fn open_streams(&self) -> u64
        ensures { (s : ℕ) → s < 64 → has_bit result s ≡ (account_at self.now.txns.accounts s).is_open }
    {
        let mut streams = 0;
        for stream in 0..STREAMS {
            streams = with_bit(streams, stream, self.txns.is_open(stream));
        }
        streams
    }

    /// Takes the memory for an update that is about to enter. What memory was taken for before is left.
    pub(crate) fn make_room(&mut self, entering: &Entering) -> Result<(), NoMemory>
        requires { entering.now.stream < 64 }
        ensures same { IsAsBefore self.old self.new }
        ensures due { (s : ℕ) → IsDue self.old s → IsDue self.new s }
        ensures ready { OnOk result (IsReadyFor entering.now self.new) }
    {
        self.meta.clear_room();
        let stream = entering.stream;
        room_for_all(&mut self.meta, stream, entering.recs.all())?;
        self.txns.reserve_ops(stream, entering.ops.all().len())?;
        self.keys.reserve(stream, 1)?;
        self.free.reserve(stream)
    }

    /// Seals a stream: the batch of its updates stands last in the queue, and it has no update left. It takes no memory.
    pub(crate) fn seal(&mut self, stream: u8)
        requires stream { stream < 64 }
        requires due { IsDue self.old stream }
        ensures sealed { AreSealed self.old (stream ∷ []) self.new }
        ensures held { IsHeld self.old → IsHeld self.new }
        ensures others { (r : ℕ) → r ≢ stream → IsHeld self.old → IsDue self.old r → IsDue self.new r }
    {
        let recs = self.meta.seal(stream);
        self.txns.seal(stream, recs);
        self.keys.forget(stream);
        self.free.release(stream);
    }

    /// Seals the streams whose bits are set, in rising order. It takes no memory.
    pub(crate) fn seal_these(&mut self, sealed: u64)
        requires held { IsHeld self.old }
        requires due { (s : ℕ) → s < 64 → has_bit sealed s ≡ true → IsDue self.old s }
        ensures sealed { AreSealed self.old (filter (has_bit sealed) streams) self.new }
        ensures others { (r : ℕ) → r < 64 → has_bit sealed r ≡ false → IsDue self.old r → IsDue self.new r }
    {
        for stream in 0..STREAMS {
            if has_bit(sealed, stream) {
                self.seal(stream);
            }
        }
    }

    /// Enters an update into its stream, for which the memory was taken. The inode of each serial is in the list, that of a new row
    /// last. It takes no memory.
    pub(crate) fn enter(&mut self, entering: Entering, update: &Update, inodes: &[u32])
        requires stream { entering.stream < 64 }
        requires ready { IsReadyFor entering self.old }
        requires weight { (account_at self.old.txns.accounts entering.stream).weight + 512 < 2 ^ 32 }
        requires blocks { self.old.txns.gave_blocks < 2 ^ 32 }
        requires rows { self.old.txns.gave_rows + entering.gave_rows < 2 ^ 32 }
        requires serials { AreSerialsBelow (length inodes.now) update.now }
        requires built { is_built update.now ≡ true }
        requires below { (i : ℕ) → has i (given_by inodes.now update.now) ≡ true → i < self.old.free.count }
        requires made { (dir : ℕ) (name : List ℕ) (id : ℕ) (is_dir : Bool) → update.now ≡ Make dir name id is_dir → slice_index_or inodes.now id 0 < self.old.free.count }
        requires may { MayLogAll (area self.old.meta) entering.stream entering.recs }
        ensures entered { (count : ℕ) (t : Rows) (unsealed : List (ℕ × Charged)) (cost : Charge) → IsTree t → HaveInodes count inodes.now t → AreOwned inodes.now t unsealed → Fits t update.now → is_built update.now ≡ true
            → MakesTheLast count inodes.now t unsealed update.now → weight_kept cost entering.gave_rows → entering.recs ≡ its_records count inodes.now update.now → entering.ops ≡ ops_of inodes.now update.now
            → IsPendingOf count inodes.now t unsealed self.old → IsPendingOf count inodes.now (apply t update.now) ((entering.stream, (update.now, cost)) ∷ unsealed) self.new }
        ensures queue { self.new.txns.queue ≡ self.old.txns.queue }
        ensures seals { self.new.txns.seals ≡ self.old.txns.seals }
    {
        let Entering {
            stream,
            gave_rows,
            recs,
            ops,
        } = entering;
        log_all(&mut self.meta, stream, recs.all());
        self.txns.add(stream, WEIGHT, 0, gave_rows, ops);
        self.keys.add(stream, update);
        self.free.enter(stream, update, inodes);
    }
}
