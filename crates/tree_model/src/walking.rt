//! Walks along the names of a path.
ghost use Rattle.std.specs.Prelude.{◌≡◌, ◌≢◌, []};
ghost use Rattle.tree_model.specs.Walk.{walk, step, parent_and_name};

use super::keeping::{ROOT, Tree};
use ccfs_base::{Name, Path, Refusal};

impl Tree {
    /// The serial of what stands at a path: `NoEntry` where a name of it has no entry, and `NotDir` where one that is
    /// a file has a name behind it, whichever comes first. It takes no memory.
    pub fn resolve(&self, path: &Path) -> Result<u32, Refusal>
        ensures { result ≡ walk self.now path.now 0 }
    {
        let mut at = ROOT;
        let mut names = path.names();
        while let Some(name) = names.next_name() {
            at = self.step(at, &name)?;
        }
        Ok(at)
    }

    /// The directory that the last name of a path is to stand in, and that name. The refusals are those of `resolve`
    /// for the other names, and `NotDir` where these lead to a file. It takes no memory.
    pub fn resolve_parent(&self, path: &Path) -> Result<(u32, Name), Refusal>
        requires { path.now ≢ [] }
        ensures { result ≡ parent_and_name self.now path.now }
    {
        let mut at = ROOT;
        let mut names = path.names();
        let Some(mut last) = names.next_name() else {
            unreachable!()
        };
        while let Some(name) = names.next_name() {
            at = self.step(at, &last)?;
            last = name;
        }
        if self.is_dir(at) {
            Ok((at, last))
        } else {
            Err(Refusal::NotDir)
        }
    }

    /// From a directory to its entry of that name.
    fn step(&self, dir: u32, name: &Name) -> Result<u32, Refusal>
        ensures { result ≡ step self.now dir name.now }
    {
        if !self.is_dir(dir) {
            return Err(Refusal::NotDir);
        }
        match self.entry(dir, name) {
            Some(id) => Ok(id),
            None => Err(Refusal::NoEntry),
        }
    }
}
