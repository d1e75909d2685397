// Touches of a full cache map.
use st_cachemap::{CacheMap, Touch};
use std::alloc::Global;
use std::io;
use std::time::{Clock, Instant};

// An odd number near 2^64 over the golden ratio: its multiples walk through cells in no simple order.
const STEP: u64 = 0x9E37_79B9_7F4A_7C15;

/// A map of so many places that is full of the cells from 0 on.
pub fn full(alloc: Global, places: usize) -> Option<CacheMap> {
    if places == 0 {
        return None;
    }
    let mut map = CacheMap::make(alloc, places).ok()?;
    for cell in 0..places {
        map.touch(cell as u64);
    }
    Some(map)
}

/// Touches cells below `cells`, and gives the number of hits.
fn touch_all(map: &mut CacheMap, cells: u64, times: u64) -> u64 {
    let mut at = 0u64;
    let mut hits = 0u64;
    for _ in 0..times {
        at = at.wrapping_add(STEP);
        let cell = if cells == 0 { 0 } else { (at >> 32) % cells };
        if let Touch::Hit(_) = map.touch(cell) {
            hits = hits.wrapping_add(1);
        }
    }
    hits
}

/// Touches cells that no call touched before, and gives the number of those that fell out.
fn touch_others(map: &mut CacheMap, times: u64) -> u64 {
    let mut fallen = 0u64;
    for i in 0..times {
        if let Touch::Miss(_, Some(_)) = map.touch(i.wrapping_sub(times)) {
            fallen = fallen.wrapping_add(1);
        }
    }
    fallen
}

/// The hits among so many touches of the cells of a full map, and their nanoseconds.
pub fn time_hits(clock: &impl Clock, map: &mut CacheMap, times: u64) -> io::Result<(u64, u128)> {
    let start = Instant::now(clock)?;
    let cells = map.capacity() as u64;
    let hits = touch_all(map, cells, times);
    Ok((hits, start.elapsed(clock)?.as_nanos()))
}

/// The cells that fell out at so many touches of others, and their nanoseconds.
pub fn time_misses(clock: &impl Clock, map: &mut CacheMap, times: u64) -> io::Result<(u64, u128)> {
    let start = Instant::now(clock)?;
    let fallen = touch_others(map, times);
    Ok((fallen, start.elapsed(clock)?.as_nanos()))
}
