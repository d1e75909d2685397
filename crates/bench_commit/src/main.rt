//! How many commits a second a rack without faults takes, beside plain hashing and copying of the same bytes. It does nothing without
//! an argument.
#![tactic(auto)]

mod commits;
mod place;
mod plain;

use commits::{DELTA, Texts, commit_often};
use place::{SECTORS, blank, flex_area, is_pool, pool_area};
use plain::hash_and_copy;
use st_deltalog::Tail;
use st_memrack::NoFaultRack;
use st_units::DevList;
use std::time::Instant;
use std::{env, io};

/// The bytes of a flex record of 128 filesystems and 32,768 mappings.
const FULL: usize = 806_948;

/// The bytes of a flex record without filesystems.
const SMALL: usize = 40;

/// How often each row is timed; the best counts. A round is short, so that some are not cut off by other work.
const ROUNDS: u64 = 100;

/// A pool that makes commits.
#[derive(Drop)]
struct Site {
    rack: NoFaultRack,
    devs: DevList,
    tail: Tail,
    generation: u64,
}

/// Microseconds since then, at least one.
fn micros(rt: &HostRuntime, start: &Instant) -> io::Result<u128> {
    Ok(start.elapsed(rt)?.as_micros().max(1))
}

/// Microseconds of so many commits, behind a checkpoint with a buffer that is warm. None where one wasn't made.
fn round(
    rt: &HostRuntime,
    site: &mut Site,
    texts: &mut Texts,
    with_deltas: bool,
    times: u64,
) -> io::Result<Option<u128>> {
    let (pool, flex) = (pool_area(), flex_area());
    let Site {
        rack,
        devs,
        tail,
        generation,
    } = site;
    if !is_pool(rack, devs, &pool, &flex) || !texts.fit(&pool, &flex) {
        return Ok(None);
    }
    let first = commit_often(rack, devs, &pool, &flex, tail, false, *generation, 1, texts);
    let Some(first) = first else {
        return Ok(None);
    };
    let start = Instant::now(rt)?;
    let last = commit_often(
        rack,
        devs,
        &pool,
        &flex,
        tail,
        with_deltas,
        first,
        times,
        texts,
    );
    let taken = micros(rt, &start)?;
    let Some(last) = last else {
        return Ok(None);
    };
    *generation = last;
    Ok(Some(taken))
}

/// Microseconds of as much plain hashing and copying.
fn plain_round(
    rt: &HostRuntime,
    block: &mut [u8],
    devices: usize,
    texts: &mut Texts,
    with_deltas: bool,
    times: u64,
) -> io::Result<u128> {
    let delta = [7; DELTA];
    let mut delta_work = [0; 512];
    let start = Instant::now(rt)?;
    if with_deltas {
        hash_and_copy(
            block,
            devices,
            &delta,
            &texts.rec,
            &mut delta_work,
            &mut texts.work,
            times,
        );
    } else {
        hash_and_copy(
            block,
            devices,
            &texts.body,
            &texts.rec,
            &mut texts.body_work,
            &mut texts.work,
            times,
        );
    }
    micros(rt, &start)
}

/// A row of the table.
fn row(rt: &HostRuntime, devices: usize, with_deltas: bool, times: u64) -> io::Result<()> {
    let alloc = rt.alloc();
    if devices > 16 {
        return Ok(());
    }
    let Some((rack, devs)) = blank(alloc, devices) else {
        return println!(*rt; "no memory");
    };
    let mut site = Site {
        rack,
        devs,
        tail: Tail { slot: 0, next: 0 },
        generation: 0,
    };
    let body = if with_deltas { SMALL } else { FULL };
    // A record of so many devices, each with a segment.
    let mut texts = Texts::make(alloc, body, 88 + 92 * devices)?;
    let mut block = vec![in alloc; 1u8; 512 * SECTORS as usize * devices]?;
    let (mut best, mut plain) = (u128::MAX, u128::MAX);
    for _ in 0..ROUNDS {
        let Some(taken) = round(rt, &mut site, &mut texts, with_deltas, times)? else {
            return println!(*rt; "no commit");
        };
        best = best.min(taken);
        let taken = plain_round(
            rt,
            block.as_mut_slice(),
            devices,
            &mut texts,
            with_deltas,
            times,
        )?;
        plain = plain.min(taken);
    }
    show(rt, devices, with_deltas, times, best, plain)
}

fn show(
    rt: &HostRuntime,
    devices: usize,
    with_deltas: bool,
    times: u64,
    best: u128,
    plain: u128,
) -> io::Result<()> {
    let what = if with_deltas { "delta" } else { "checkpoint" };
    let speed = u128::from(times) * 1_000_000 / best.max(1);
    let share = best.min(1_000_000_000) * 100 / plain.max(1);
    println!(*rt;
        "{devices} devices, {what}: {speed} commits a second, {best} us for {times}; plain {plain} us; {share} % of its time"
    )
}

fn main(rt: HostRuntime) -> io::Result<()> {
    if env::args(&rt)?.nth(1).is_none() {
        return Ok(());
    }
    for devices in [1, 16] {
        row(&rt, devices, true, 100)?;
        row(&rt, devices, false, 1)?;
    }
    Ok(())
}
