//! How long a full flex record takes to be encoded and decoded. It does nothing without an argument.
#![tactic(auto)]

mod full;

use std::time::Instant;
use std::{env, io};

// How often each call is made.
const ROUNDS: u32 = 20;

fn main(rt: HostRuntime) -> io::Result<()> {
    if env::args(&rt)?.nth(1).is_none() {
        return Ok(());
    }
    for filesystems in [32, 64, 128] {
        let Some(rec) = full::record(rt.alloc(), filesystems) else {
            println!(rt; "{filesystems} filesystems: no record")?;
            continue;
        };
        let begin = Instant::now(&rt)?;
        let made = full::encode_often(rt.alloc(), &rec, ROUNDS);
        let encoding = begin.elapsed(&rt)?.as_micros() / u128::from(ROUNDS);
        let Some(bytes) = made else {
            println!(rt; "{filesystems} filesystems: no memory")?;
            continue;
        };
        let begin = Instant::now(&rt)?;
        let read = full::decode_often(rt.alloc(), bytes.items(), ROUNDS);
        let decoding = begin.elapsed(&rt)?.as_micros() / u128::from(ROUNDS);
        println!(rt;
            "{} mappings and cells, {} bytes: encode {encoding} us, decode {decoding} us, {read} of {ROUNDS} read",
            rec.mappings.len(),
            bytes.len()
        )?;
    }
    Ok(())
}
