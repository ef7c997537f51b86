//! What holds of volumes that pass all checks: each law is the contract of a function that changes nothing.
ghost use Rattle.image_model.specs.SoundLaws.{SoundVolumesCarry, SoundBesideBatches, InodesAreListed, BareVolumesAreBare};

/// The tree of a sound volume is a tree, and the volume carries it.
pub fn sound_volumes_carry()
    ensures { SoundVolumesCarry }
{}

/// A volume that passes all checks, its batch number among them, passes those that are made where no batch is open.
pub fn sound_beside_batches()
    ensures { SoundBesideBatches }
{}

/// The inodes of a sound volume in order of their serials are those that have a row, each once and the root's first, and the
/// rows of its tree have the places of that list for their serials.
pub fn inodes_are_listed()
    ensures { InodesAreListed }
{}

/// Until files have bytes and may stay open without a name, no file of a sound volume is gone, and each is empty.
pub fn bare_volumes_are_bare()
    ensures { BareVolumesAreBare }
{}
