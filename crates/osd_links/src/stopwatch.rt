use std::time::Duration;

// The time that something has taken so far, from the first look at it on.
#[derive(Clone, Copy, Drop)]
pub(crate) struct Stopwatch {
    began: Option<Duration>,
}

impl Stopwatch {
    // One that hasn't begun.
    pub(crate) fn new() -> Self {
        Stopwatch { began: None }
    }

    // How much of a limit is left at this time of a clock. It begins with the first call, and again where the clock went
    // back. A clock that can't be read uses up nothing.
    pub(crate) fn left_of(&mut self, limit: Duration, now: Option<Duration>) -> Duration {
        let Some(now) = now else {
            return limit;
        };
        let spent = match self.began {
            Some(began) => now.checked_sub(began),
            None => None,
        };
        if let Some(spent) = spent {
            return limit.saturating_sub(spent);
        }
        self.began = Some(now);
        limit
    }
}
