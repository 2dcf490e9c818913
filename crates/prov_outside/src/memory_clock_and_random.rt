// Clock and random words in memory: the times and the words are there from the start, each list in the order of asking.
ghost use Rattle.std.specs.Prelude.{◌≡◌, ◌↔◌, ◌⊎◌, Some, [], IsErr};
ghost use Rattle.prov_outside.specs.Count.{Counts, as_trouble};
ghost use Rattle.prov_outside.specs.MemoryClockAndRandom.{TakesFirst};
ghost use Rattle.prov_outside.specs.ClockAndRandom.{GivesTime, GivesWord};
ghost use Rattle.prov_outside.specs.Numbering.{NextFails, after_call};

use crate::ClockAndRandom;
use crate::calls::Calls;
use prov_base::Failed;
use std::marker::Model;

/// A clock and a source of words in memory, which tells all that it holds. It numbers its calls from 1 in one order,
/// whatever their kind; a call fails, and raises its own count by one, exactly where its number is in a list that was
/// given, or where no answer of its kind is left.
#[derive(Drop, Debug)]
pub struct MemoryClockAndRandom {
    times: Vec<i64>,
    words: Vec<u64>,
    times_given: usize,
    words_given: usize,
    calls: Calls,
    time_faults: u64,
    word_faults: u64,
}

impl Model for MemoryClockAndRandom {
    ghost use Rattle.std.specs.Prelude.{◌≤◌, length, take, drop};
    ghost use Rattle.prov_outside.specs.MemoryClockAndRandom.{MemoryClockAndRandomView};

    ghost Value = { MemoryClockAndRandomView };

    ghost view = { λ m. record {
      times = drop m.times_given m.times.items;
      words = drop m.words_given m.words.items;
      given = record { times = take m.times_given m.times.items; words = take m.words_given m.words.items };
      calls = m.calls;
      time_faults = m.time_faults;
      word_faults = m.word_faults;
    } };

    ghost invariant = { λ m. (m.times_given ≤ length m.times.items) × (m.words_given ≤ length m.words.items) };
}

impl MemoryClockAndRandom {
    /// A clock and random words with these times and words, at which the calls with the listed numbers fail.
    pub fn of(times: Vec<i64>, words: Vec<u64>, failing: Vec<u64>) -> MemoryClockAndRandom
        ensures times { result.times ≡ times.items }
        ensures words { result.words ≡ words.items }
        ensures given { result.given ≡ record { times = []; words = [] } }
        ensures calls { result.calls ≡ record { failing = failing.items; made = 0 } }
        ensures time_faults { result.time_faults ≡ 0 }
        ensures word_faults { result.word_faults ≡ 0 }
    {
        MemoryClockAndRandom {
            times,
            words,
            times_given: 0,
            words_given: 0,
            calls: Calls::of(failing),
            time_faults: 0,
            word_faults: 0,
        }
    }
}

impl ClockAndRandom for MemoryClockAndRandom {
    ghost told = { λ m. Some m.given };

    ghost time_faults = { λ m. m.time_faults };

    ghost word_faults = { λ m. m.word_faults };

    /// The first time that is left.
    fn now_ns(&mut self) -> Result<i64, Failed>
        ensures time { GivesTime result self.old.given self.new.given }
        ensures cause { Counts self.old.time_faults self.new.time_faults (as_trouble result) }
        ensures others { self.new.word_faults ≡ self.old.word_faults }
        ensures fails { IsErr result ↔ (NextFails self.old.calls ⊎ (self.old.times ≡ [])) }
        ensures numbered { self.new.calls ≡ after_call self.old.calls }
        ensures times { TakesFirst result self.old.times self.new.times }
        ensures words { self.new.words ≡ self.old.words }
    {
        if self.calls.next_fails() {
            self.time_faults = self.time_faults.saturating_add(1);
            return Err(Failed);
        }
        let Some(time) = self.times.get(self.times_given) else {
            self.time_faults = self.time_faults.saturating_add(1);
            return Err(Failed);
        };
        let time = *time;
        self.times_given += 1;
        Ok(time)
    }

    /// The first word that is left.
    fn word(&mut self) -> Result<u64, Failed>
        ensures word { GivesWord result self.old.given self.new.given }
        ensures cause { Counts self.old.word_faults self.new.word_faults (as_trouble result) }
        ensures others { self.new.time_faults ≡ self.old.time_faults }
        ensures fails { IsErr result ↔ (NextFails self.old.calls ⊎ (self.old.words ≡ [])) }
        ensures numbered { self.new.calls ≡ after_call self.old.calls }
        ensures words { TakesFirst result self.old.words self.new.words }
        ensures times { self.new.times ≡ self.old.times }
    {
        if self.calls.next_fails() {
            self.word_faults = self.word_faults.saturating_add(1);
            return Err(Failed);
        }
        let Some(word) = self.words.get(self.words_given) else {
            self.word_faults = self.word_faults.saturating_add(1);
            return Err(Failed);
        };
        let word = *word;
        self.words_given += 1;
        Ok(word)
    }
}
