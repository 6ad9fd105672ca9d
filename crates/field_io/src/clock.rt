ghost use Rattle.std.specs.Prelude.{◌≡◌, ℕ, Option, None, Some, IfSome};
ghost use Rattle.field_io.specs.Clock.{IsMoment};

use std::rt;
use std::time::{SystemTime, UNIX_EPOCH};

/// The first moment past the last year that a date can have.
const MOMENT_LIMIT: u64 = 253_402_300_800;

/// Moments, in seconds since 1970.
pub trait Clock {
    /// The moment that each call answers, where the clock tells it.
    ghost told: { Self → Option ℕ };

    fn now(&mut self) -> u64
        ensures moment { IsMoment result }
        ensures told { IfSome (told self.old) (λ moment. result ≡ moment) }
        ensures kept { told self.new ≡ told self.old };
}

/// A clock that stands.
#[derive(Clone, Copy, Debug)]
pub struct FixedClock {
    moment: u64,
    ghost is_moment: { IsMoment moment },
}

impl FixedClock {
    pub fn make(moment: u64) -> FixedClock
        requires { IsMoment moment }
        ensures { ⟦<FixedClock as Clock>⟧.told result ≡ Some moment }
    {
        FixedClock { moment }
    }
}

impl Clock for FixedClock {
    ghost told = { λ c. Some c.moment };

    fn now(&mut self) -> u64 {
        self.moment
    }
}

/// The system's clock. A time before 1970, past the year 9999 or that can't be read is told as 1970.
#[derive(Debug, Drop)]
pub struct SystemClock<R> {
    runtime: R,
}

impl<R: rt::Clock> SystemClock<R> {
    pub fn new(runtime: R) -> SystemClock<R> {
        SystemClock { runtime }
    }
}

impl<R: rt::Clock> Clock for SystemClock<R> {
    ghost told = { λ _. None };

    fn now(&mut self) -> u64 {
        let Ok(time) = SystemTime::now(&self.runtime) else {
            return 0;
        };
        match time.duration_since(UNIX_EPOCH) {
            Ok(since) if since.as_secs() < MOMENT_LIMIT => since.as_secs(),
            _ => 0,
        }
    }
}
