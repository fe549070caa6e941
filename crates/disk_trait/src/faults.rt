//! Which calls of a disk fail.
ghost use Rattle.std.specs.Prelude.{◌≡◌, ℕ, ◌-◌, Bool, Option, Some};
ghost use Rattle.disk_trait.specs.Faulty.{before_next, fails_next, is_due};

use std::marker::Model;

/// Which of the calls to come fail.
pub trait Faults: Drop {
    /// Whether the next call fails.
    ghost fails: { Self → Bool };

    /// Which calls fail after the next one.
    ghost after: { Self → Self };

    /// Counts one call, and answers whether it fails.
    fn strike(&mut self) -> bool
        ensures fails { result ≡ fails self.old }
        ensures after { self.new ≡ after self.old };
}

/// A number of calls pass; from then on each call fails.
#[derive(Drop)]
pub struct Fuse {
    calls_left: u64,
}

impl Model for Fuse {
    ghost Value = { ℕ };

    ghost view = { λ f. f.calls_left };
}

impl Fuse {
    /// Lets `calls` calls pass.
    pub fn new(calls: u64) -> Fuse
        ensures { result ≡ calls }
    {
        Fuse { calls_left: calls }
    }
}

impl Faults for Fuse {
    ghost fails = { fails_next };

    ghost after = { λ calls. calls - 1 };

    fn strike(&mut self) -> bool {
        if self.calls_left == 0 {
            return true;
        }
        self.calls_left -= 1;
        false
    }
}

/// One call fails.
#[derive(Drop)]
pub struct Once {
    calls_before: Option<u64>,
}

impl Model for Once {
    ghost Value = { Option ℕ };

    ghost view = { λ o. o.calls_before };
}

impl Once {
    /// The call of this number, counted from 0, fails.
    pub fn new(call: u64) -> Once
        ensures { result ≡ Some call }
    {
        Once {
            calls_before: Some(call),
        }
    }
}

impl Faults for Once {
    ghost fails = { is_due };

    ghost after = { before_next };

    fn strike(&mut self) -> bool {
        match self.calls_before {
            None => false,
            Some(0) => {
                self.calls_before = None;
                true
            }
            Some(calls) => {
                self.calls_before = Some(calls - 1);
                false
            }
        }
    }
}
