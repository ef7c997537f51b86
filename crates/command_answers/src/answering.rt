//! What each command answers from a view.
ghost use Rattle.std.specs.Prelude.{◌≡◌, ℕ, IfOk, IfSome, IsTrue, is_some};
ghost use Rattle.ccfs_base.specs.Names.{is_path};
ghost use Rattle.tree_cuts.specs.Calls.{Sizes};
ghost use Rattle.history_model.specs.State.{Now, stream_in};
ghost use Rattle.history_model.specs.Answers as answers;
ghost use Rattle.command_answers.specs.Viewing.{told, Sees, IsReady, is_viewed};

use super::views::{Answered, View};
use ccfs_base::{Command, NoMemory, Path};
use std::alloc::Global;

/// A law: the names of a path make a path.
fn is_a_path(path: &Path)
    ensures { IsTrue (is_path path.now) }
{
    let _ = path.is_root();
}

/// What mkdir (for `is_dir` true) or create answers.
pub fn answer_make(view: &View<'_>, path: &Path, is_dir: bool) -> Answered
    ensures told { (sizes : Sizes) (n : Now) (s : ℕ) → Sees sizes n s view.now → told result ≡ answers.make sizes n s is_dir path.now }
    ensures ready { (sizes : Sizes) (n : Now) (s : ℕ) → Sees sizes n s view.now → IfSome result.update (IsReady n.tree) }
{
    view.tree.is_a_tree();
    is_a_path(path);
    view.make(path, is_dir)
}

/// What unlink answers.
pub fn answer_unlink(view: &View<'_>, path: &Path) -> Answered
    ensures told { (sizes : Sizes) (n : Now) (s : ℕ) → Sees sizes n s view.now → told result ≡ answers.unlink sizes n path.now }
    ensures ready { (sizes : Sizes) (n : Now) (s : ℕ) → Sees sizes n s view.now → IfSome result.update (IsReady n.tree) }
{
    view.tree.is_a_tree();
    is_a_path(path);
    view.unlink(path)
}

/// What rmdir answers.
pub fn answer_rmdir(view: &View<'_>, path: &Path) -> Answered
    ensures told { (sizes : Sizes) (n : Now) (s : ℕ) → Sees sizes n s view.now → told result ≡ answers.rmdir sizes n path.now }
    ensures ready { (sizes : Sizes) (n : Now) (s : ℕ) → Sees sizes n s view.now → IfSome result.update (IsReady n.tree) }
{
    view.tree.is_a_tree();
    is_a_path(path);
    view.rmdir(path)
}

/// What rename answers.
pub fn answer_rename(view: &View<'_>, path: &Path, to: &Path) -> Answered
    ensures told { (sizes : Sizes) (n : Now) (s : ℕ) → Sees sizes n s view.now → told result ≡ answers.rename sizes n path.now to.now }
    ensures ready { (sizes : Sizes) (n : Now) (s : ℕ) → Sees sizes n s view.now → IfSome result.update (IsReady n.tree) }
{
    view.tree.is_a_tree();
    is_a_path(path);
    is_a_path(to);
    view.rename(path, to)
}

/// What stat answers.
pub fn answer_stat(view: &View<'_>, path: &Path) -> Answered
    ensures { (sizes : Sizes) (n : Now) (s : ℕ) → Sees sizes n s view.now → told result ≡ answers.at_path n.tree path.now (answers.stat sizes n) }
{
    view.stat(path)
}

/// What list answers.
pub fn answer_list(
    alloc: Global,
    view: &View<'_>,
    path: &Path,
    skip: u32,
) -> Result<Answered, NoMemory>
    ensures { (sizes : Sizes) (n : Now) (s : ℕ) → Sees sizes n s view.now → IfOk result (λ a. told a ≡ answers.at_path n.tree path.now (answers.listing sizes n skip)) }
{
    view.list(alloc, path, skip)
}

/// What a command answers that is answered from a view, and `None` for any other.
pub fn answer(
    alloc: Global,
    view: &View<'_>,
    command: &Command,
) -> Result<Option<Answered>, NoMemory>
    ensures viewed { IfOk result (λ all. is_some all ≡ is_viewed command.now) }
    ensures told { (sizes : Sizes) (n : Now) (actor : ℕ) → Sees sizes n (stream_in n.choices actor) view.now → IfOk result (λ all. IfSome all (λ a. told a ≡ answers.answer sizes n actor command.now)) }
    ensures ready { (sizes : Sizes) (n : Now) (s : ℕ) → Sees sizes n s view.now → IfOk result (λ all. IfSome all (λ a. IfSome a.update (IsReady n.tree))) }
{
    match command {
        Command::Mkdir { path } => Ok(Some(answer_make(view, path, true))),
        Command::Create { path } => Ok(Some(answer_make(view, path, false))),
        Command::Unlink { path } => Ok(Some(answer_unlink(view, path))),
        Command::Rmdir { path } => Ok(Some(answer_rmdir(view, path))),
        Command::Rename { path, to } => Ok(Some(answer_rename(view, path, to))),
        Command::Stat { path } => Ok(Some(answer_stat(view, path))),
        Command::List { path, skip } => {
            let listed = answer_list(alloc, view, path, *skip)?;
            Ok(Some(listed))
        }
        _ => Ok(None),
    }
}
