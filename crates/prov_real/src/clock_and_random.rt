// The system's clock, and its source of random bits.
ghost use Rattle.std.specs.Prelude.{◌≡◌, None};

use crate::faults::counted_fault;
use prov_base::Failed;
use prov_outside::ClockAndRandom;
use std::random::RandomSource;
use std::time::{SystemTime, UNIX_EPOCH};

/// The system's clock and its source of random bits. It tells nothing of what they give, and counts the faults of each.
#[derive(Drop)]
pub struct RealClockAndRandom<'a> {
    rt: &'a HostRuntime,
    time_faults: u64,
    word_faults: u64,
}

impl<'a> RealClockAndRandom<'a> {
    /// The clock and the random bits of the system, with no fault so far. It opens nothing and takes no memory.
    pub fn new(rt: &'a HostRuntime) -> RealClockAndRandom<'a>
        ensures time_faults { ⟦<RealClockAndRandom<'a> as ClockAndRandom>⟧.time_faults result ≡ 0 }
        ensures word_faults { ⟦<RealClockAndRandom<'a> as ClockAndRandom>⟧.word_faults result ≡ 0 }
    {
        RealClockAndRandom {
            rt,
            time_faults: 0,
            word_faults: 0,
        }
    }
}

impl ClockAndRandom for RealClockAndRandom<'_> {
    ghost told = { λ _. None };

    ghost time_faults = { λ moments. moments.time_faults };

    ghost word_faults = { λ moments. moments.word_faults };

    /// The time of the system's clock. A clock that stands before 1970, or behind the year 2262, where the nanoseconds
    /// outrun 64 bits, is a fault, and so is every error of the system.
    fn now_ns(&mut self) -> Result<i64, Failed> {
        let time = system_time(self.rt);
        counted_fault(&mut self.time_faults, time)
    }

    /// 64 bits of the system's source. Every error of the system is a fault.
    fn word(&mut self) -> Result<u64, Failed> {
        let word = random_word(self.rt);
        counted_fault(&mut self.word_faults, word)
    }
}

/// The nanoseconds since 1970 began.
fn system_time(rt: &HostRuntime) -> Result<i64, Failed> {
    let Ok(now) = SystemTime::now(rt) else {
        return Err(Failed);
    };
    let Ok(since) = now.duration_since(UNIX_EPOCH) else {
        return Err(Failed);
    };
    i64::try_from(since.as_nanos()).map_err(|_| Failed)
}

/// 64 random bits.
fn random_word(rt: &HostRuntime) -> Result<u64, Failed> {
    let mut bytes = [0u8; 8];
    match rt.fill_bytes(&mut bytes) {
        Ok(()) => Ok(u64::from_le_bytes(bytes)),
        Err(_) => Err(Failed),
    }
}
