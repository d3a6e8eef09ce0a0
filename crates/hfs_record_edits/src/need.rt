//! How many free nodes records that are added to the extents tree need.

ghost use Rattle.std.specs.Prelude.{◌≡◌};
ghost use Rattle.hfs_record_edits.specs.Need.{extents_need};
ghost use Rattle.hfs_record_edits.specs.Adding.{AdditionsLeaveEnough};

/// How many free nodes an extents tree of `depth` levels and `records` records must have so that adding `coming` records never
/// lacks one: 4,294,967,296, which no tree has, if it could grow to more than 16 levels.
///
/// It is exact if all records are in one leaf. Otherwise each record that is added may need a node on each level, and one for a
/// new root.
#[tactic(auto, unfolding(crate::specs::Need::extents_need))]
pub fn extents_need(coming: u32, depth: u16, records: u32) -> u64
    ensures { result ≡ extents_need coming depth records }
{
    let n = coming as u64;
    let d = depth as u64;
    if n == 0 {
        return 0;
    }
    if d <= 1 && records as u64 + n <= 22 {
        return 1 - d;
    }
    if d + n > 16 {
        return 4_294_967_296;
    }
    n * d + n * (n + 1) / 2
}

/// If a tree has as many free nodes as several records need, then after the first of them is added it has as many as the others
/// need.
pub fn additions_leave_enough()
    ensures { AdditionsLeaveEnough }
{}
