//! Clocks, which say what moment it is.

ghost use Rattle.std.specs.Prelude.{ℕ, ◌≡◌, Bool, Option, Some};
ghost use Rattle.racf_outside.specs.Clock.{MayCome, only};

/// What says the moment that is now, in seconds. Its meaning is a test, which moments it may give, where it tells that.
pub trait Clock {
    /// Whether it may give a moment; `None` claims nothing.
    ghost may_give: { Self → Option (ℕ → Bool) };

    /// The moment that is now.
    fn now(&self) -> u64
        ensures given { MayCome (may_give self.now) result };
}

/// A clock that stands: it gives its number alone.
#[derive(Clone, Copy, Debug)]
pub struct Steady(pub u64);

impl Clock for Steady {
    ghost may_give = { λ clock. Some (only clock.0) };

    fn now(&self) -> u64
        ensures given { MayCome (Some (only self.now.0)) result }
        ensures same { result ≡ self.now.0 }
    {
        self.0
    }
}
