//! The laws of carried volumes and of fronts, which are functions that do nothing: each may be called.
use carried_volumes::laws::{carried_volumes_stand, sound_volumes_are_opened};
use front_laws::laws::*;

#[test]
fn the_laws_of_carried_volumes_hold(_rt: HostRuntime) {
    carried_volumes_stand();
    sound_volumes_are_opened();
}

#[test]
fn the_laws_of_fronts_hold(_rt: HostRuntime) {
    histories_leave_kept_states();
    empty_histories_are_kept();
    next_calls_are_kept();
    a_free_inode_is_there();
    rows_fit_behind_seals();
    more_inodes_leave_updates();
    updates_may_be_logged();
    batches_carry_on();
    longer_keeps_batches();
    seals_make_batches();
    batches_have_their_size();
    batches_act();
    batches_are_covered();
    batches_are_light();
    operations_carry_on();
}
