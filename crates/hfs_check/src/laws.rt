//! What holds for the checks of an image, each law as the contract of a function that does nothing.
ghost use Rattle.hfs_check.specs.Laws.{NoImageFault, SoundImagesAreLawful, BytesStay, BytesStayBut, AgreementsJoin};

/// The checks of an image find no fault exactly when it is sound.
pub fn no_image_fault()
    ensures { NoImageFault }
{}

/// A sound image holds a lawful volume.
pub fn sound_images_are_lawful()
    ensures { SoundImagesAreLawful }
{}

/// If an image agrees with a base, each byte that is in no block that calls change is the base's, even after the last whole
/// block.
pub fn bytes_stay()
    ensures { BytesStay }
{}

/// If an image agrees except for some blocks, each byte that is outside the blocks that calls change and outside these is the
/// base's as well.
pub fn bytes_stay_but()
    ensures { BytesStayBut }
{}

/// If an image agrees with a second one except for some blocks, and the second with a base except for others, then the first
/// agrees with the base except for the blocks of both lists.
pub fn agreements_join()
    ensures { AgreementsJoin }
{}
