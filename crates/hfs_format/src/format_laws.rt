//! What holds for the images of new volumes, each as the contract of a function that does nothing.
ghost use Rattle.hfs_format.specs.FormatLaws.{NewImagesAreSound, NewImagesHoldNewVolumes};

/// The image of each plan without a fault is sound.
pub fn new_images_are_sound()
    ensures { NewImagesAreSound }
{}

/// The image of each plan without a fault holds the volume of the plan: only the root folder, with the volume's name, and the
/// plan's moment as its dates.
pub fn new_images_hold_new_volumes()
    ensures { NewImagesHoldNewVolumes }
{}
