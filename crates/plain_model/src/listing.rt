//! What a listing answers.
ghost use Rattle.std.specs.Prelude.{◌≡◌, IfOk, take, drop, map};
ghost use Rattle.tree_model.specs.Rows.{is_dir_at};
ghost use Rattle.tree_cuts.specs.Calls as calls;
ghost use Rattle.history_model.specs.Answers as answers;

use super::answering::{Answer, refused, tells};
use super::keeping::State;
use ccfs_base::{Name, Names, NoMemory, Refusal, Reply};

/// The most names of one listing.
const NAMES_MOST: usize = 64;

/// At most so many of these, behind the first `skip`.
fn window(all: &[(Name, u32)], skip: u32, most: usize) -> &[(Name, u32)]
    ensures { result.now ≡ take most (drop skip all.now) }
{
    if skip as usize >= all.len() {
        return &all[..0];
    }
    let rest = &all[skip as usize..];
    &rest[..rest.len().min(most)]
}

impl State {
    /// Lists a directory: a file; the number of entries, and at most 64 names behind the first `skip`.
    pub(crate) fn listing(&self, skip: u32, id: u32) -> Result<Answer, NoMemory>
        ensures { IfOk result (λ a. (sizes : calls.Sizes) → a ≡ answers.listing sizes self.now skip id) }
    {
        if !self.tree.is_dir(id) {
            return Ok(refused(Refusal::NotDir));
        }
        let all = self.tree.list(self.alloc, id)?;
        let names = self.names(window(&all, skip, NAMES_MOST))?;
        Ok(tells(Reply::Listed {
            total: self.tree.entry_count(id),
            names,
        }))
    }

    /// These names, each with whether it is a directory's.
    fn names(&self, entries: &[(Name, u32)]) -> Result<Names, NoMemory>
        ensures { IfOk result (λ names. names ≡ map (λ e. (e.0, is_dir_at self.now.tree e.1)) entries.now) }
    {
        let mut names = Names::new(self.alloc);
        for (name, id) in entries {
            names.push((*name, self.tree.is_dir(*id)))?;
        }
        Ok(names)
    }
}
