//! What holds for repaired images, each law as the contract of a function that does nothing.
ghost use Rattle.hfs_repair.specs.RepairLaws.{RepairKeepsOthers, RepairKeepsSoundImages};

/// A repair keeps the image's length, and each byte that is in none of the counts: drNmFls, drFreeBks, drNmRtDirs, drFilCnt,
/// drDirCnt, both trees' bthNRecs and bthFree, and the folders' valences.
pub fn repair_keeps_others()
    ensures { RepairKeepsOthers }
{}

/// A sound image is its own repair.
pub fn repair_keeps_sound_images()
    ensures { RepairKeepsSoundImages }
{}
