//! A clock over a list of readings.
ghost use Rattle.std.specs.Prelude.{◌≡◌, [], ◌∷◌, false};
ghost use Rattle.cal_base.specs.Played.{readings_given, reading_at, played_on};
ghost use Rattle.cal_base.specs.Told.{Gives};

use crate::Clock;
use cal_value::Seq;
use std::marker::Model;

/// A clock that gives the readings of a list, in their order. Behind the list's end it repeats the
/// last one, or 0 where there is none, and tells nothing from then on.
#[derive(Debug, Drop)]
pub struct MemClock {
    readings: Seq<u64>,
    place: usize,
    is_past: bool,
}

impl Model for MemClock {
    ghost use Rattle.std.specs.Prelude.{◌≤◌, length};
    ghost use Rattle.cal_base.specs.Played.{Played};

    ghost Value = { Played };

    ghost view = { λ c. record {
      readings = c.readings;
      place = c.place;
      is_past = c.is_past;
    } };

    ghost invariant = { λ c. c.place ≤ length c.readings };
}

impl MemClock {
    /// A clock of these readings, of which none was given. It takes no memory.
    pub fn new(readings: Seq<u64>) -> Self
        ensures { result ≡ record { readings = readings; place = 0; is_past = false } }
    {
        MemClock {
            readings,
            place: 0,
            is_past: false,
        }
    }
}

impl Clock for MemClock {
    ghost given = { λ c. readings_given c };

    fn now(&mut self) -> u64
        // As at every clock.
        ensures gives { Gives (readings_given self.old) (readings_given self.new) (result ∷ []) }

        // The next reading of the list, or the last one again.
        ensures reading { result ≡ reading_at self.old.readings self.old.place }
        ensures after { self.new ≡ played_on self.old }
    {
        let readings = self.readings.as_slice();
        if self.place < readings.len() {
            let reading = readings[self.place];
            self.place += 1;
            return reading;
        }
        let reading = readings.last().copied().unwrap_or(0);
        self.is_past = true;
        reading
    }
}
