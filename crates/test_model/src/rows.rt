ghost use Rattle.test_model.specs.Devices.{AddedOnce, CacheMadeOnce, HeldOnce, RepeatedOnce, SmallRefused};
ghost use Rattle.test_model.specs.Faults.{DeviceIsHeld, LimitsRise, NameIsHeld, SerialsRise};
ghost use Rattle.test_model.specs.Filesystems.{CreatedOnce, HandedOn, MarksCleared, WithinRoom};
ghost use Rattle.test_model.specs.Full.{MappingsEnd, NewIsReported, SpaceEnds};
ghost use Rattle.test_model.specs.Session.{OrdinarySession, SnapshotOutlives, UnwrittenIsZero};
ghost use Rattle.test_model.specs.Writing.{CacheCounts, CheckExtends, MergedAtStart, ReadsAreBounded, SharedIsKept};

/// A pool is made; made again, nothing changes; on other devices its name is in use.
pub fn names_of_pools_are_held_once()
    ensures { HeldOnce }
{}

/// A device that is given twice counts once.
pub fn repeated_devices_count_once()
    ensures { RepeatedOnce }
{}

/// One sector less than the least size is refused; the least size leaves 36 blocks.
pub fn small_devices_are_refused()
    ensures { SmallRefused }
{}

/// A second device is added; added again, nothing changes; the room has grown by its blocks.
pub fn devices_are_added_once()
    ensures { AddedOnce }
{}

/// The cache tier is made, and no second time; it grows by further devices.
pub fn the_cache_is_made_once()
    ensures { CacheMadeOnce }
{}

/// Of a list of names those that are there are skipped, and a bad size refuses all.
pub fn filesystems_are_created_once()
    ensures { CreatedOnce }
{}

/// Without overprovisioning the sizes together stay within the room.
pub fn sizes_stay_within_room()
    ensures { WithinRoom }
{}

/// What a destroyed filesystem had as its origin becomes the origin of what had it as theirs.
pub fn origins_are_handed_on()
    ensures { HandedOn }
{}

/// One filesystem may be marked for each origin, and a mark goes with its origin.
pub fn marks_go_with_their_origin()
    ensures { MarksCleared }
{}

/// A read past the end, and one of too many sectors.
pub fn reads_are_bounded()
    ensures { ReadsAreBounded }
{}

/// A write over a shared block takes a cell of its own; the shared one stays with the snapshot when its origin goes.
pub fn shared_blocks_are_kept()
    ensures { SharedIsKept }
{}

/// A marked snapshot is its origin after the next start, and is found by its own name no more.
pub fn merges_come_with_the_start()
    ensures { MergedAtStart }
{}

/// Below sixteen free blocks a check extends what is allocated.
pub fn checks_extend_what_is_allocated()
    ensures { CheckExtends }
{}

/// A pool with a cache, a filesystem, a snapshot, and a stop and a start between, down to the report.
pub fn an_ordinary_session()
    ensures { OrdinarySession }
{}

/// Sectors that weren't written read as zeros.
pub fn unwritten_sectors_are_zeros()
    ensures { UnwrittenIsZero }
{}

/// A snapshot keeps what its origin held, also when the origin is written over and destroyed.
pub fn snapshots_outlive_their_origin()
    ensures { SnapshotOutlives }
{}

/// Sixty-three blocks read through a cache of sixty-two, and one of them twice more.
pub fn caches_count_hits_and_misses()
    ensures { CacheCounts }
{}

/// The name that a rename in flight gives is held, until the start finds the state before it.
pub fn a_name_in_flight_is_held()
    ensures { NameIsHeld }
{}

/// A device that a call in flight adds is in use; a start frees it, or finds it added.
pub fn a_device_in_flight_is_in_use()
    ensures { DeviceIsHeld }
{}

/// A pool that was renamed and ended leaves its name and its devices, and not its serial.
pub fn serials_are_given_once()
    ensures { SerialsRise }
{}

/// The limit on filesystems never falls, and is at most 256.
pub fn limits_on_filesystems_rise()
    ensures { LimitsRise }
{}

/// What a report says of a new pool.
pub fn new_pools_are_reported()
    ensures { NewIsReported }
{}

/// Where all blocks are written, a write to one more is refused, and so is a write over a shared one.
pub fn space_ends()
    ensures { SpaceEnds }
{}

/// Where all mappings are there, a snapshot and a write to a new block are refused; a write over a shared block is none more.
pub fn mappings_end()
    ensures { MappingsEnd }
{}
