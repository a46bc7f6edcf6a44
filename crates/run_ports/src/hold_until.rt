use crate::meet::Meet;
use std::sync::atomic::{AtomicBool, AtomicU64, Ordering};

/// Keeps one driver at its first turn until another has had its own begun, so that a run ends in time only where two
/// workers share the drivers.
#[derive(Drop)]
pub struct HoldUntil {
    first: u32,
    second: u32,
    limit: u64,
    arrivals: AtomicU64,
    has_second_arrived: AtomicBool,
    was_late: AtomicBool,
}

impl HoldUntil {
    /// Holds the driver `first` until `second` has arrived. It looks again at most `limit` times.
    pub fn new(first: u32, second: u32, limit: u64) -> HoldUntil {
        HoldUntil {
            first,
            second,
            limit,
            arrivals: AtomicU64::new(0),
            has_second_arrived: AtomicBool::new(false),
            was_late: AtomicBool::new(false),
        }
    }

    /// Whether the limit was reached.
    pub fn was_late(&self) -> bool {
        self.was_late.load(Ordering::SeqCst)
    }

    /// How many drivers arrived.
    pub fn arrivals(&self) -> u64 {
        self.arrivals.load(Ordering::SeqCst)
    }

    /// Looks until the second has arrived.
    fn hold(&self) {
        for _ in 0..self.limit {
            if self.has_second_arrived.load(Ordering::SeqCst) {
                return;
            }
        }
        self.was_late.store(true, Ordering::SeqCst);
    }
}

impl Meet for HoldUntil {
    fn arrive(&self, driver: u32) {
        self.arrivals.fetch_add(1, Ordering::SeqCst);
        if driver == self.second {
            self.has_second_arrived.store(true, Ordering::SeqCst);
        }
        if driver == self.first {
            self.hold();
        }
    }
}
