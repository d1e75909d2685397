//! Worked rows of the model: scripts of calls, and what `step` answers to each.
#![tactic(auto)]

mod rows;

pub use rows::{
    a_device_in_flight_is_in_use, a_name_in_flight_is_held, an_ordinary_session,
    caches_count_hits_and_misses, checks_extend_what_is_allocated, devices_are_added_once,
    filesystems_are_created_once, limits_on_filesystems_rise, mappings_end,
    marks_go_with_their_origin, merges_come_with_the_start, names_of_pools_are_held_once,
    new_pools_are_reported, origins_are_handed_on, reads_are_bounded, repeated_devices_count_once,
    serials_are_given_once, shared_blocks_are_kept, sizes_stay_within_room,
    small_devices_are_refused, snapshots_outlive_their_origin, space_ends, the_cache_is_made_once,
    unwritten_sectors_are_zeros,
};
