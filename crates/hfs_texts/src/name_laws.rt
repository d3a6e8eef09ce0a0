//! What holds for host names, for host paths and for days.
ghost use Rattle.hfs_texts.specs.Calendar.{day_since_1904};
ghost use Rattle.hfs_texts.specs.HostNames.{host_name};
ghost use Rattle.hfs_texts.specs.NameLaws.{AreDays, AreHostNames, AreHostPaths, AreKnownMoments};
ghost use Rattle.hfs_texts.specs.Moments.{moment};
ghost use Rattle.hfs_texts.specs.MacPaths.{host_path};

/// The laws of host names: two names with the same host name are the same bytes. A host name is not empty, does not begin with a
/// point, has no slash and no zero byte, and takes at most 93 bytes for a name of at most 31. Names that are not the same in name
/// order have host names that differ even ignoring the case of ASCII letters, and the host name of an item name is ASCII.
pub fn host_name_laws()
    ensures { AreHostNames host_name }
{}

/// The laws of host paths: if two paths are the same, the names on both ways are the same bytes; if they are the same except for
/// the case of ASCII letters, the names are the same in name order.
pub fn host_path_laws()
    ensures { AreHostPaths host_path }
{}

/// The law of days: the day of each date of 32 bits exists in the calendar, and the days of its years, months and month add up to
/// the date.
pub fn day_laws()
    ensures { AreDays day_since_1904 }
{}

/// Moments at which calendars go wrong: the first and the last one, and the leap days of 1904 and 2000.
pub fn known_moments()
    ensures { AreKnownMoments moment }
{}
