//! How long is waited between tries.

ghost use Rattle.std.specs.Prelude.{◌≡◌};
ghost use Rattle.net_client.specs.Tries.{after_wait, next_wait};

/// How long is waited between tries: at first so long, then twice as long each time, up to a bound, so many times. Times are in
/// milliseconds.
#[derive(Clone, Copy)]
pub struct Backoff {
    /// The next wait.
    pub first: u64,
    /// The longest wait.
    pub most: u64,
    /// How many waits there are, and so how many tries after the first one.
    pub tries: u32,
}

impl Backoff {
    /// 100 milliseconds at first, 10 seconds at most, 20 times: some two and a half minutes in all.
    pub fn standard() -> Backoff
        ensures { result ≡ record { first = 100; most = 10000; tries = 20 } }
    {
        Backoff {
            first: 100,
            most: 10_000,
            tries: 20,
        }
    }

    /// How long to wait before the next try. `None`: there is none.
    pub fn next(&mut self) -> Option<u64>
        ensures wait { result ≡ next_wait self.old }
        ensures after { self.new ≡ after_wait self.old }
    {
        if self.tries == 0 {
            return None;
        }
        let wait = self.first.min(self.most);
        self.tries -= 1;
        self.first = wait.saturating_mul(2);
        Some(wait)
    }
}
