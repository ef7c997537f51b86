//! What a session keeps.
ghost use Rattle.std.specs.Prelude.{◌≡◌, []};

use std::alloc::Global;
use std::marker::Model;
use tree_model::{Tree, Update};

/// The numbers of an image, which stay as they are.
#[derive(Drop)]
pub struct Sizes {
    pub(crate) data_blocks: u32,
    pub(crate) inodes: u32,
}

impl Model for Sizes {
    ghost use Rattle.tree_cuts.specs.Calls as calls;

    ghost Value = { calls.Sizes };

    ghost view = { λ s. record { data_blocks = s.data_blocks; inodes = s.inodes } };
}

impl Sizes {
    /// These numbers of data blocks and of inodes.
    pub fn new(data_blocks: u32, inodes: u32) -> Sizes
        ensures { result ≡ record { data_blocks = data_blocks; inodes = inodes } }
    {
        Sizes {
            data_blocks,
            inodes,
        }
    }
}

/// What an actor chose last.
#[derive(Drop)]
pub struct Choice {
    pub(crate) actor: u8,
    pub(crate) stream: u8,
    pub(crate) ignore: bool,
}

impl Model for Choice {
    ghost use Rattle.history_model.specs.State as state;

    ghost Value = { state.Choice };

    ghost view = { λ c. record { actor = c.actor; stream = c.stream; ignore = c.ignore } };
}

/// An open handle of an actor.
#[derive(Drop)]
pub struct Opened {
    pub(crate) actor: u8,
    pub(crate) number: u8,
    pub(crate) file: u32,
}

impl Model for Opened {
    ghost use Rattle.history_model.specs.State as state;

    ghost Value = { state.Opened };

    ghost view = { λ o. record { actor = o.actor; number = o.number; file = o.file } };
}

/// What the accounts count of an update.
#[derive(Drop)]
pub struct Charge {
    pub(crate) weight: u128,
    pub(crate) gave_blocks: u128,
    pub(crate) gave_rows: u64,
}

impl Model for Charge {
    ghost use Rattle.tree_cuts.specs.Calls as calls;

    ghost Value = { calls.Charge };

    ghost view = { λ c. record { weight = c.weight; gave_blocks = c.gave_blocks; gave_rows = c.gave_rows } };
}

/// An update that no seal covers yet: its stream, the update and what it was charged.
pub(crate) type Unsealed = (u8, (Update, Charge));

/// What a history leaves. A contract sees it as that.
#[derive(Drop)]
pub struct State {
    pub(crate) alloc: Global,
    pub(crate) tree: Tree,
    pub(crate) choices: Vec<Choice>,
    pub(crate) handles: Vec<Opened>,
    pub(crate) unsealed: Vec<Unsealed>,
    pub(crate) next: u32,
    pub(crate) seals: u64,
}

impl Model for State {
    ghost use Rattle.history_model.specs.State as state;
    ghost use Rattle.plain_model.specs.Codes.{now_code};

    ghost Value = { state.Now };

    ghost coded = { now_code };

    ghost view = { λ s. record { tree = s.tree; choices = s.choices.items; handles = s.handles.items; unsealed = s.unsealed.items; next = s.next; seals = s.seals } };
}

impl State {
    /// A session's start on a tree, where each new row gets this serial or a greater one.
    pub fn of(alloc: Global, tree: Tree, next: u32) -> State
        ensures { result ≡ record { tree = tree; choices = []; handles = []; unsealed = []; next = next; seals = 0 } }
    {
        State {
            alloc,
            tree,
            choices: Vec::new(alloc),
            handles: Vec::new(alloc),
            unsealed: Vec::new(alloc),
            next,
            seals: 0,
        }
    }
}
