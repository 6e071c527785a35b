ghost use Rattle.std.specs.Prelude.{◌≡◌, ◌&&◌, if◌then◌else◌, Some, None};
ghost use Rattle.std.specs.List.{list_any};
ghost use Rattle.cal_run.specs.Lines.{takes};
ghost use Rattle.cal_run.specs.Timers.{AreTimers};

use crate::lines::is_event;
use crate::steps::takes_start_reading;
use cal_script::{Line, Script};

/// Whether some channel of a script has the timer, and whether one with the timer takes events: by
/// these it is known which lines take a reading, with no walk over the channels.
#[derive(Clone, Copy, Debug, PartialEq, Eq)]
pub struct Timers {
    pub some: bool,
    pub events: bool,
}

impl Timers {
    /// Those of a script.
    pub fn of(script: &Script) -> Self
        ensures { AreTimers script.now result }
    {
        Timers {
            some: takes_start_reading(script),
            events: takes_event_readings(script),
        }
    }

    /// Whether a line takes a reading, which is where some channel with the timer takes a snapshot.
    #[inline(always)]
    pub fn is_read(self, script: &Script, line: Line, accepted: bool) -> bool
        requires { AreTimers script.now self }
        ensures { result ≡ list_any
            (λ channel. channel.timer && (accepted && takes script.now channel line))
            script.now.channels }
    {
        accepted && self.may_read(script, line)
    }

    #[inline(always)]
    fn may_read(self, script: &Script, line: Line) -> bool
        requires { AreTimers script.now self }
        ensures { result
            ≡ list_any (λ channel. channel.timer && takes script.now channel line)
            script.now.channels }
    {
        match line {
            Line::Snapshot => self.some,
            _ => self.events && is_event(script, line),
        }
    }
}

/// Whether some channel with the timer takes events.
fn takes_event_readings(script: &Script) -> bool
    ensures { result ≡ list_any (λ channel. channel.timer && channel.event) script.now.channels }
{
    script
        .channels
        .as_slice()
        .iter()
        .any(|channel| channel.timer && channel.event)
}

/// The clock as a reading, if one is taken.
#[inline(always)]
pub(crate) fn reading_if(read: bool, clock: u64) -> Option<u64>
    ensures { result ≡ (if read then Some clock else None) }
{
    if read { Some(clock) } else { None }
}
