//! The laws of cuts and of histories, each called once: that they hold at trees, and that a call of each comes back.
use history_laws::{
    accepted_updates_apply, blocks_are_kept_free, closed_cuts_apply, cuts_stay, durable_is_sealed,
    entries_seal_what_they_must, files_stay_within_their_limit, given_blocks_are_kept,
    given_rows_are_kept, histories_have_closed_cuts, images_mean_cuts, inodes_are_kept_free,
    no_update_weighs_more, prefixes_are_legal, trees_stay_trees,
};
use stream_cuts::kept_apply;
use tree_cuts::{
    Trees, a_changed_file_has_its_bytes, cuts_are_closed, cuts_are_trees, kept_updates_apply,
    longer_histories_keep, syncs_keep_what_they_are_for, the_next_cut_is_one_batch_on,
    transactions_are_light,
};

#[test]
fn the_laws_of_cuts_hold_of_trees(_rt: HostRuntime) {
    cuts_are_closed();
    kept_updates_apply();
    longer_histories_keep();
    the_next_cut_is_one_batch_on();
    cuts_are_trees();
    a_changed_file_has_its_bytes();
    syncs_keep_what_they_are_for();
    transactions_are_light();
    kept_apply::<Trees>();
}

#[test]
fn the_laws_of_histories_hold(_rt: HostRuntime) {
    accepted_updates_apply();
    trees_stay_trees();
    files_stay_within_their_limit();
    no_update_weighs_more();
    blocks_are_kept_free();
    inodes_are_kept_free();
    given_blocks_are_kept();
    given_rows_are_kept();
    prefixes_are_legal();
    histories_have_closed_cuts();
    closed_cuts_apply();
    cuts_stay();
    entries_seal_what_they_must();
    durable_is_sealed();
    images_mean_cuts();
}
