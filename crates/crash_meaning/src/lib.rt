//! What the images of a run mean to a user of the file system.
//!
//! The crate stands on `ccfs_top`, whose contracts say that each image a run leaves lies within the history of its calls, and
//! on the laws of histories. It has definitions, and no code: each public function has an empty body, and its contract is one
//! law. The laws say that such an image has the tree of a closed cut of the history, which holds each sync that was
//! acknowledged; that each call of a script may be made, so that the history of a run is legal; and that what an image
//! recovers to is a tree.
#![tactic(auto)]

ghost use Rattle.crash_meaning.specs.Laws.{ImagesRecoverToTrees, TheseForNow, FoundTreesKeepWithin, CallsMayBeMade, ScriptsAreLegal, CallsGoOn, CrashesMeanCuts, ScriptCrashesMeanCuts, MomentsMeanCuts, ScriptMomentsMeanCuts, RunsMeanCuts};
ghost use Rattle.crash_meaning.specs.Composing.{RowsCompose};

use ccfs_base::Sink;
use disk_model::Disk;

/// What an image recovers to is a tree: also what is opened until files have bytes and may stay open without a name.
pub fn images_recover_to_trees()
    ensures all { ImagesRecoverToTrees }
    ensures for_now { TheseForNow }
{}

/// The tree of an image that was found has no file that is too long, and its blocks and rows have room there. So the laws of
/// histories hold of each session over it.
pub fn found_trees_keep_within()
    ensures { FoundTreesKeepWithin }
{}

/// Each call that a script asks for may be made: its actor is below 64, and its command is within its bounds.
pub fn calls_may_be_made()
    ensures { CallsMayBeMade }
{}

/// The history of the first calls of a script is legal, however many they are, whatever was there before. With one call more
/// it goes on by the entry of that call.
pub fn scripts_are_legal()
    ensures legal { ScriptsAreLegal }
    ensures more { CallsGoOn }
{}

/// An image that a crash leaves behind answered calls means a cut: of each stream the first updates are kept, and with each
/// kept update all earlier ones of other streams that meet it; each sync that was acknowledged is held; and the picture is
/// that of the tree which the kept updates make. Another call may have been under way: the cut is one of the history with it.
pub fn crashes_mean_cuts()
    ensures histories { CrashesMeanCuts }
    ensures scripts { ScriptCrashesMeanCuts }
{}

/// An image that a crash leaves at any moment of a session means a cut of the history so far, the call under way included.
pub fn moments_mean_cuts()
    ensures histories { MomentsMeanCuts }
    ensures scripts { ScriptMomentsMeanCuts }
{}

/// What a run leaves on a disk means this: at each moment an image of the start or a cut, and in the end a cut with each sync
/// that the whole reply lines acknowledge.
pub fn runs_mean_cuts<D: Disk>()
    ensures { RunsMeanCuts D.Disk }
{}

/// On an image that was just made a run that ends with status 0 writes its replies and its tree; and `tree`, on the disk that the
/// run left, prints the same tree under the same number: no more is durable there than what was acknowledged.
pub fn rows_compose<D: Disk, K: Sink>()
    ensures { RowsCompose D.Disk K.Sink }
{}

#[cfg(test)]
mod tests {
    use super::*;
    use ccfs_base::MemSink;
    use disk_model::MemDisk;

    #[test]
    fn the_laws_hold(_rt: HostRuntime) {
        images_recover_to_trees();
        found_trees_keep_within();
        calls_may_be_made();
        scripts_are_legal();
        crashes_mean_cuts();
        moments_mean_cuts();
        runs_mean_cuts::<MemDisk>();
        rows_compose::<MemDisk, MemSink>();
    }
}
