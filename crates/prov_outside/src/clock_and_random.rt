// The clock, and the source of random words.
ghost use Rattle.std.specs.Prelude.{◌≡◌, Option, ℕ};
ghost use Rattle.prov_outside.specs.Count.{Counts, as_trouble};
ghost use Rattle.prov_outside.specs.ClockAndRandom.{ClockAndRandomView, GivesTime, GivesWord};
ghost use Rattle.prov_outside.specs.Tells.{Tells};

use prov_base::Failed;

/// The time of day, and random words. No call takes memory.
pub trait ClockAndRandom {
    /// The times and words that were given so far, where it tells them.
    ghost told: { Self → Option ClockAndRandomView };

    /// How often `now_ns` has failed.
    ghost time_faults: { Self → ℕ };

    /// How often `word` has failed.
    ghost word_faults: { Self → ℕ };

    /// The time in nanoseconds since 1970 began (UTC).
    fn now_ns(&mut self) -> Result<i64, Failed>
        ensures time { Tells (told self.old) (told self.new) (GivesTime result) }
        ensures cause { Counts (time_faults self.old) (time_faults self.new) (as_trouble result) }
        ensures others { word_faults self.new ≡ word_faults self.old };

    /// 64 random bits.
    fn word(&mut self) -> Result<u64, Failed>
        ensures word { Tells (told self.old) (told self.new) (GivesWord result) }
        ensures cause { Counts (word_faults self.old) (word_faults self.new) (as_trouble result) }
        ensures others { time_faults self.new ≡ time_faults self.old };
}
