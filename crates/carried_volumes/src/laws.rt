//! What holds of volumes that carry trees: each law is the contract of a function that changes nothing.
ghost use Rattle.carried_volumes.specs.Laws.{CarriedVolumesStand, SoundVolumesAreOpened};

/// A volume that carries a tree passes all checks but that of the batch number, and its tree is this one.
pub fn carried_volumes_stand()
    ensures { CarriedVolumesStand }
{}

/// A volume that passes all checks carries its tree.
pub fn sound_volumes_are_opened()
    ensures { SoundVolumesAreOpened }
{}
