//! The real clock.

ghost use Rattle.std.specs.Prelude.{None};

use racf_outside::Clock;
use std::io;
use std::time::{Clock as SystemClock, SystemTime, UNIX_EPOCH};

/// The clock of the system: the whole seconds since 1970. Nothing is claimed of what it gives. Where it tells no time,
/// or one before, that is 0.
#[derive(Drop)]
pub struct RealClock<R: SystemClock + Drop> {
    /// What reads it.
    runtime: R,
}

impl<R: SystemClock + Drop> RealClock<R> {
    /// The clock of this runtime's system.
    pub fn new(runtime: R) -> RealClock<R> {
        RealClock { runtime }
    }
}

impl<R: SystemClock + Drop> Clock for RealClock<R> {
    ghost may_give = { λ _. None };

    fn now(&self) -> u64 {
        match seconds_now(&self.runtime) {
            Ok(seconds) => seconds,
            Err(_) => 0,
        }
    }
}

/// The whole seconds since 1970. It is an error where the system tells no time.
fn seconds_now<R: SystemClock>(clock: &R) -> io::Result<u64> {
    match SystemTime::now(clock)?.duration_since(UNIX_EPOCH) {
        Ok(since) => Ok(since.as_secs()),
        Err(_) => Ok(0),
    }
}
