//! What answering sees of a session, and what it answers.
ghost use Rattle.std.specs.Prelude.{◌≡◌, ◌≢◌, [], false, IfOk, IfErr, Ok, Err};
ghost use Rattle.tree_model.specs.Walk.{parent_walk, last_of};
ghost use Rattle.history_model.specs.Answers as answers;
ghost use Rattle.command_answers.specs.Viewing.{told};

use ccfs_base::{Name, Path, Refusal, Reply};
use tree_model::{Tree, Update};

/// What is seen of a session for the commands of one stream.
#[derive(Clone, Copy, Drop)]
pub struct View<'a> {
    /// The tree of all that was done.
    pub tree: &'a Tree,
    /// The serial of the next new row.
    pub next: u32,
    /// The inodes of the image.
    pub inodes: u32,
    /// The rows that unsealed updates of other streams gave up.
    pub gave_rows: u32,
}

/// A reply, and what changes of the tree, if anything does.
#[derive(Debug, Drop)]
pub struct Answered {
    /// What the actor is told.
    pub reply: Reply,
    /// The update that is to be made.
    pub update: Option<Update>,
}

/// The refusal for a cause. Nothing changes.
pub(crate) fn refused(cause: Refusal) -> Answered
    ensures { told result ≡ answers.refused cause }
{
    Answered {
        reply: Reply::Refused(cause),
        update: None,
    }
}

/// A reply, and no update.
pub(crate) fn tells(reply: Reply) -> Answered
    ensures { told result ≡ answers.tells reply }
{
    Answered {
        reply,
        update: None,
    }
}

/// Done, with this update.
pub(crate) fn does(update: Update) -> Answered
    ensures { told result ≡ answers.does update }
{
    Answered {
        reply: Reply::Done,
        update: Some(update),
    }
}

/// Whether a path is that of the root.
pub(crate) fn is_root(path: &Path) -> bool
    ensures root { result ≡ answers.is_root path.now }
    ensures other { result ≡ false → path.now ≢ [] }
{
    path.is_root()
}

/// The directory that the last name of a path is to stand in, and that name.
pub(crate) fn parent(tree: &Tree, path: &Path) -> Result<(u32, Name), Refusal>
    requires { path.now ≢ [] }
    ensures ok { IfOk result (λ p. (parent_walk tree.now path.now ≡ Ok p.0) × (last_of path.now ≡ p.1)) }
    ensures err { IfErr result (λ cause. parent_walk tree.now path.now ≡ Err cause) }
{
    tree.resolve_parent(path)
}
