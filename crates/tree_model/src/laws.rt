//! Laws of the definitions, each the contract of a function that does nothing.
ghost use Rattle.std.specs.Prelude.{◌≡◌, ◌↔◌, ℕ, List};
ghost use Rattle.std.specs.declared.option.Option.TheVariants.{Some};
ghost use Rattle.tree_model.specs.Rows.{Rows, IsEntry, IsTree};
ghost use Rattle.tree_model.specs.Entries.{entry};
ghost use Rattle.tree_model.specs.Laws.{TestTells, KeepsTrees, UpdatesSwap, MeetingIsMutual, OthersLeaveBytes};

/// A law: in a tree, the test of an update passes exactly where the update applies.
pub fn the_test_tells_what_applies()
    ensures { TestTells }
{}

/// A law: in a tree, the entry of a name is the row that stands there.
pub fn an_entry_stands_at_its_name()
    ensures { (t : Rows) → IsTree t → (d : ℕ) (n : List ℕ) (x : ℕ) → (entry t d n ≡ Some x) ↔ IsEntry t d n x }
{}

/// A law: an update that applies keeps a tree a tree.
pub fn an_update_keeps_a_tree()
    ensures { KeepsTrees }
{}

/// A law: two updates that don't meet apply in both orders, and make the same tree.
pub fn updates_that_do_not_meet_swap()
    ensures { UpdatesSwap }
{}

/// A law: where one update meets another, that one meets it.
pub fn meeting_is_mutual()
    ensures { MeetingIsMutual }
{}

/// A law: an update that doesn't meet one that changes a file leaves that file's bytes as they are.
pub fn others_leave_the_bytes()
    ensures { OthersLeaveBytes }
{}
