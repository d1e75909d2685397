use crossbeam_utils::CachePadded;
use std::sync::Wait;
use std::sync::atomic::{AtomicU64, Ordering};
use std::{hint, thread};

// A seat whose ticket waits looks so often with a short pause; from then on it yields its processor after each look.
const SPINS: u32 = 20;

// So often it looks whether as many tickets were released as may stand before its own.
const PATIENT_LOOKS: u32 = 100;

// So often it looks in all before it sleeps.
const LOOKS: u32 = 500;

/// Rung at each release, for the seats whose tickets wait. No clause speaks of it: what a seat is granted, its next try says.
#[derive(Drop)]
pub(crate) struct Bell {
    /// How often it rang. The number wraps.
    rings: CachePadded<AtomicU64>,
    /// The seats that sleep, or are about to: while there are none, nobody is woken.
    sleepers: CachePadded<AtomicU64>,
}

impl Bell {
    pub fn new() -> Bell {
        Bell {
            rings: CachePadded::new(AtomicU64::new(0)),
            sleepers: CachePadded::new(AtomicU64::new(0)),
        }
    }

    /// How often it rang.
    pub fn rings(&self) -> u64 {
        self.rings.load(Ordering::SeqCst)
    }

    /// Tells all who wait that a ticket was released. It makes a system call only where a seat sleeps.
    pub fn ring(&self) {
        self.rings.fetch_add(1, Ordering::SeqCst);
        if self.sleepers.load(Ordering::SeqCst) > 0 {
            self.rings.wake_all();
        }
    }

    /// Waits for so many rings since it rang `seen` times; after a while one will do. It may end for no reason.
    pub fn wait(&self, rt: &impl Wait, seen: u64, rings: u64) {
        for looks in 0..LOOKS {
            let rung = self.rings().wrapping_sub(seen);
            if rung >= rings || (looks >= PATIENT_LOOKS && rung > 0) {
                return;
            }
            if looks < SPINS {
                hint::spin_loop();
            } else {
                thread::yield_now();
            }
        }
        self.sleep(rt, seen);
    }

    /// Sleeps while it rang so often. The seat counts itself among the sleepers before it looks for the last time, so no
    /// ring falls between.
    fn sleep(&self, rt: &impl Wait, seen: u64) {
        self.sleepers.fetch_add(1, Ordering::SeqCst);
        self.rings.park(rt, (seen % (1 << 32)) as u32);
        self.sleepers.fetch_sub(1, Ordering::SeqCst);
    }
}
