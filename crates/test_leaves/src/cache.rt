//! Lists linked by index, and the cache map.

use st_cachemap::{CacheMap, Touch};
use st_links::Links;
use std::test::Fail;

// Puts a place last in a list, where the arena takes it.
fn put_back(links: &mut Links, list: usize, place: usize) -> bool {
    let ready = list < links.lists() && place < links.places() && !links.is_linked(place);
    if ready {
        links.push_back(list, place);
    }
    ready
}

fn put_front(links: &mut Links, list: usize, place: usize) -> bool {
    let ready = list < links.lists() && place < links.places() && !links.is_linked(place);
    if ready {
        links.push_front(list, place);
    }
    ready
}

#[test]
fn lists_hold_what_the_calls_left(rt: HostRuntime) -> Result<(), Fail> {
    let mut links = Links::make(rt.alloc(), 2, 4).ok().ok_or("out of memory")?;
    assert!(rt; put_back(&mut links, 0, 0));
    assert!(rt; put_back(&mut links, 0, 1));
    assert!(rt; put_front(&mut links, 0, 2));
    assert!(rt; put_back(&mut links, 1, 3));
    assert!(rt; !put_back(&mut links, 1, 3));
    if links.is_linked(1) {
        links.move_front(1);
    }
    if links.is_linked(0) {
        links.unlink(0);
    }
    assert_eq!(rt;
        (links.first(0), links.next(1), links.next(2)),
        (Some(1), Some(2), None)
    );
    assert_eq!(rt;
        (links.last(0), links.prev(2), links.prev(1)),
        (Some(2), Some(1), None)
    );
    assert_eq!(rt;
        (links.first(1), links.last(1), links.next(3)),
        (Some(3), Some(3), None)
    );
    assert_eq!(rt; (links.next(0), links.first(2)), (None, None));
    Ok(())
}

#[test]
fn touch_promotes_and_drops_the_last(rt: HostRuntime) -> Result<(), Fail> {
    let mut map = CacheMap::make(rt.alloc(), 2).ok().ok_or("out of memory")?;
    assert!(rt; matches!(map.touch(7), Touch::Miss(_, None)));
    assert!(rt; matches!(map.touch(8), Touch::Miss(_, None)));
    assert!(rt; matches!(map.touch(7), Touch::Hit(_)));
    assert!(rt; matches!(map.touch(9), Touch::Miss(_, Some(8))));
    assert_eq!(rt; (map.len(), map.hits(), map.misses()), (2, 1, 3));
    if map.capacity() <= 4 {
        assert!(rt; map.grow(rt.alloc(), 4).is_ok());
    }
    assert!(rt; matches!(map.touch(8), Touch::Miss(_, None)));
    assert!(rt; map.peek(7).is_some());
    Ok(())
}

#[test]
fn reads_of_63_blocks_through_a_cache_of_62(rt: HostRuntime) -> Result<(), Fail> {
    let mut map = CacheMap::make(rt.alloc(), 62)?;
    for block in 0..63 {
        map.touch(block);
    }
    map.touch(0);
    map.touch(0);
    assert_eq!(rt; (map.len(), map.hits(), map.misses()), (62, 1, 64));
    Ok(())
}
