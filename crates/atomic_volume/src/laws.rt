//! What holds of images: each law is the contract of a function that does nothing.
ghost use Rattle.std.specs.Prelude.{◌≡◌, None};
ghost use Rattle.atomic_volume.specs.Opening.{opened};
ghost use Rattle.atomic_volume.specs.Refusals.{Refuses, IsBad};
ghost use Rattle.atomic_volume.specs.declared.fault.VolumeFault.{VolumeFault};

use super::fault::VolumeFault;

/// An image that is refused for what it holds opens to nothing.
pub fn refused_images_open_to_nothing(image: &[u8], fault: &VolumeFault)
    requires refused { Refuses image.now fault.now }
    requires bad { IsBad fault.now }
    ensures { opened image.now ≡ None }
{}

/// An image that opens to nothing is refused for what it holds. So just these images are.
pub fn images_that_open_to_nothing_are_refused(image: &[u8])
    requires { opened image.now ≡ None }
    ensures { (fault : VolumeFault) × IsBad fault × Refuses image.now fault }
{}
