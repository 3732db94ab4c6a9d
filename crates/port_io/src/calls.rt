//! The calls of an object in memory, some of which are to fail.
ghost use Rattle.std.specs.Prelude.{◌≡◌, ◌==◌, ◌+◌, ◌<◌, ◌^◌, IsTrue};
ghost use Rattle.std.specs.List.{list_any};
ghost use Rattle.port_io.specs.Calls.{no_calls, next_number, next_fails, after_success, after_next};

use std::marker::Model;

/// Which calls are to fail, by number from 1 on, and how many were made and failed so far.
#[derive(Debug, Drop)]
pub(crate) struct Calls {
    fails: Vec<u32>,
    made: u64,
    failed: u32,
}

impl Model for Calls {
    ghost use Rattle.std.specs.Prelude.{◌≤◌};
    ghost use Rattle.port_io.specs.Calls.{CallCount};

    ghost Value = { CallCount };

    ghost view = { λ calls. record { fails = calls.fails.items; made = calls.made; failed = calls.failed } };

    ghost invariant = { λ calls. calls.failed ≤ calls.made };
}

impl Calls {
    pub(crate) fn of(fails: Vec<u32>) -> Calls
        ensures { result ≡ no_calls fails.items }
    {
        Calls {
            fails,
            made: 0,
            failed: 0,
        }
    }

    /// Counts one more call, and tells whether it is to fail.
    pub(crate) fn begin(&mut self) -> bool
        ensures fails { result ≡ next_fails self.old }
        ensures after { self.new ≡ after_success self.old }
        ensures not_late { IsTrue result → next_number self.old < 2 ^ 32 }
        ensures room { IsTrue result → self.new.failed < self.new.made }
    {
        self.made = self.made.saturating_add(1);
        is_listed(&self.fails, self.made)
    }

    /// Counts one more failure.
    pub(crate) fn fail(&mut self)
        requires room { self.old.failed < self.old.made }
        requires early { self.old.made < 2 ^ 32 }
        ensures { self.new ≡ record self.old { failed = self.old.failed + 1 } }
    {
        self.failed += 1;
    }

    /// Counts one more call, and its failure where it is to fail, which it tells.
    pub(crate) fn next_fails(&mut self) -> bool
        ensures fails { result ≡ next_fails self.old }
        ensures after { self.new ≡ after_next self.old }
        ensures not_late { IsTrue result → next_number self.old < 2 ^ 32 }
    {
        let fails = self.begin();
        if fails {
            self.fail();
        }
        fails
    }
}

fn is_listed(numbers: &[u32], number: u64) -> bool
    ensures listed { result ≡ list_any (λ listed. listed == number) numbers.now }
    ensures small { IsTrue result → number < 2 ^ 32 }
{
    numbers.iter().any(|listed| u64::from(*listed) == number)
}
