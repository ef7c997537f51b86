//! Calls, and what they leave.
ghost use Rattle.std.specs.Prelude.{◌≡◌, ◌≤◌, ◌<◌, ◌+◌, ◌^◌, ◌∷◌, ◌==◌, IsTrue, IfOk, OnOk, length, map, not};
ghost use Rattle.std.specs.List.{filter};
ghost use Rattle.std.specs.declared.option.Option.TheVariants.{None, Some};
ghost use Rattle.stream_cuts.specs.Streams.{Seal, unsealed_after};
ghost use Rattle.tree_model.specs.Tests.{applies};
ghost use Rattle.tree_model.specs.Walk.{walk};
ghost use Rattle.history_model.specs.State.{closed};
ghost use Rattle.history_model.specs.Answers as answers;
ghost use Rattle.history_model.specs.Histories.{choices_by, opened_at, handles_by, makes, entry_of, entered_by};
ghost use Rattle.plain_model.specs.Bounds.{FilesFit, applies_if};

use super::finding::stream_in;
use super::keeping::{Charge, Choice, Opened, Sizes, State};
use super::planning::Entering;
use super::sealing::seal_all;
use ccfs_base::{Command, NoMemory, Path, Reply};
use tree_model::{Entry, Tree, Update};

/// How many rows an update puts in.
fn makes(update: &Update) -> u32
    ensures { result ≡ makes update.now }
{
    match update {
        Update::Make { .. } => 1,
        _ => 0,
    }
}

/// Takes an actor's handle out.
fn close_in(handles: &mut Vec<Opened>, actor: u8, number: u8)
    ensures { handles.new.items ≡ closed handles.old.items actor number }
{
    handles.retain(|opened| !opened.is_handle(actor, number));
}

impl State {
    /// Keeps what an actor chose, where the command is a choice.
    fn choose(&mut self, actor: u8, command: &Command) -> Result<(), NoMemory>
        ensures { OnOk result (self.new ≡ record self.old { choices = choices_by self.old.choices actor command.now }) }
    {
        if let Command::SetStream { stream, ignore } = command {
            let choice = Choice {
                actor,
                stream: *stream,
                ignore: *ignore,
            };
            self.choices.insert(0, choice)?;
        }
        Ok(())
    }

    /// Keeps a handle on the file at a path, if there is one.
    fn open_handle(&mut self, actor: u8, number: u8, path: &Path) -> Result<(), NoMemory>
        ensures { OnOk result (self.new ≡ record self.old { handles = opened_at self.old.handles actor number (walk self.old.tree path.now 0) }) }
    {
        match self.tree.resolve(path) {
            Ok(file) => self.keep_handle(actor, number, file),
            Err(_) => Ok(()),
        }
    }

    fn keep_handle(&mut self, actor: u8, number: u8, file: u32) -> Result<(), NoMemory>
        ensures { OnOk result (self.new ≡ record self.old { handles = (record { actor = actor; number = number; file = file }) ∷ self.old.handles }) }
    {
        let opened = Opened {
            actor,
            number,
            file,
        };
        self.handles.insert(0, opened)?;
        Ok(())
    }

    fn drop_handle(&mut self, actor: u8, number: u8)
        ensures { self.new ≡ record self.old { handles = closed self.old.handles actor number } }
    {
        close_in(&mut self.handles, actor, number);
    }

    /// Keeps a handle that a command opened, or gives up the one that it closed.
    fn handle(&mut self, actor: u8, command: &Command, reply: &Reply) -> Result<(), NoMemory>
        ensures { OnOk result (self.new ≡ record self.old { handles = handles_by self.old actor command.now reply.now }) }
    {
        match (command, reply) {
            (Command::OpenFile { path }, Reply::Handle { number }) => {
                self.open_handle(actor, *number, path)
            }
            (Command::Close { handle }, Reply::Done) => {
                self.drop_handle(actor, *handle);
                Ok(())
            }
            _ => Ok(()),
        }
    }

    /// Seals streams, and counts the seals.
    fn seal_these(&mut self, sealed: &[u8])
        requires few { length sealed.now ≤ 65 }
        requires counted { self.old.seals + 65 < 2 ^ 64 }
        ensures { self.new ≡ record self.old { unsealed = unsealed_after self.old.unsealed (map Seal sealed.now); seals = self.old.seals + length sealed.now } }
    {
        seal_all(&mut self.unsealed, sealed);
        self.seals += sealed.len() as u64;
    }

    /// Makes an update in a stream.
    fn enter(
        &mut self,
        stream: u8,
        update: &Update,
        after: Tree,
        charge: Charge,
    ) -> Result<(), NoMemory>
        requires { self.old.next + 1 < 2 ^ 32 }
        ensures { OnOk result (self.new ≡ record self.old { tree = after; unsealed = (stream, (update.now, charge)) ∷ self.old.unsealed; next = self.old.next + makes update.now }) }
    {
        self.unsealed.insert(0, (stream, (update.copy()?, charge)))?;
        self.tree = after;
        self.next += makes(update);
        Ok(())
    }

    /// Leaves what an entry with an update leaves.
    fn leave_update(
        &mut self,
        sizes: &Sizes,
        entry: &Entry,
        update: &Update,
    ) -> Result<(), NoMemory>
        requires is { entry.now.update ≡ Some update.now }
        requires applies { IsTrue (applies self.old.tree update.now) }
        requires counted { self.old.seals + 65 < 2 ^ 64 }
        requires next { self.old.next + 1 < 2 ^ 32 }
        ensures { OnOk result (self.new ≡ entered_by sizes.now self.old entry.now) }
    {
        let Entering {
            after,
            charge,
            sealed,
        } = self.entering(sizes, entry.stream, update)?;
        self.handle(entry.actor, &entry.command, &entry.reply)?;
        self.choose(entry.actor, &entry.command)?;
        self.seal_these(&sealed);
        self.enter(entry.stream, update, after, charge)
    }

    /// Leaves what an entry without an update leaves.
    fn leave_sync(&mut self, sizes: &Sizes, entry: &Entry) -> Result<(), NoMemory>
        requires is { entry.now.update ≡ None }
        requires counted { self.old.seals + 65 < 2 ^ 64 }
        ensures { OnOk result (self.new ≡ entered_by sizes.now self.old entry.now) }
    {
        let sealed = self.sealed_by(entry.actor, &entry.command)?;
        self.handle(entry.actor, &entry.command, &entry.reply)?;
        self.choose(entry.actor, &entry.command)?;
        self.seal_these(&sealed);
        Ok(())
    }

    /// Leaves what an entry leaves.
    pub(crate) fn leave(&mut self, sizes: &Sizes, entry: &Entry) -> Result<(), NoMemory>
        requires applies { IsTrue (applies_if self.old.tree entry.now.update) }
        requires counted { self.old.seals + 65 < 2 ^ 64 }
        requires next { self.old.next + 1 < 2 ^ 32 }
        ensures { OnOk result (self.new ≡ entered_by sizes.now self.old entry.now) }
    {
        match &entry.update {
            Some(update) => self.leave_update(sizes, entry, update),
            None => self.leave_sync(sizes, entry),
        }
    }

    /// The entry that a call makes. It changes nothing.
    pub fn entry(&self, sizes: &Sizes, actor: u8, command: &Command) -> Result<Entry, NoMemory>
        requires files { FilesFit self.now.tree }
        requires counted { self.now.seals + 64 < 2 ^ 64 }
        ensures { IfOk result (λ entry. entry ≡ entry_of sizes.now self.now actor command.now) }
    {
        let (reply, update) = self.answer(sizes, actor, command)?;
        Ok(Entry {
            actor,
            stream: stream_in(&self.choices, actor),
            command: command.copy()?,
            reply,
            update,
        })
    }

    /// Makes a call. Where memory is wanted, the state may have a part of what the call leaves, and is of no more use.
    pub fn call(&mut self, sizes: &Sizes, actor: u8, command: &Command) -> Result<Entry, NoMemory>
        requires files { FilesFit self.old.tree }
        requires counted { self.old.seals + 65 < 2 ^ 64 }
        requires next { self.old.next + 1 < 2 ^ 32 }
        requires applies { IsTrue (applies_if self.old.tree (answers.answer sizes.now self.old actor command.now).1) }
        ensures entry { IfOk result (λ entry. entry ≡ entry_of sizes.now self.old actor command.now) }
        ensures left { OnOk result (self.new ≡ entered_by sizes.now self.old (entry_of sizes.now self.old actor command.now)) }
    {
        let entry = self.entry(sizes, actor, command)?;
        self.leave(sizes, &entry)?;
        Ok(entry)
    }
}
