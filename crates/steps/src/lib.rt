// A step: the tick, or a channel, as one number (SPECIFICATION 6.8). Where a step is written, in a run, in code 20 or
// by a program, it goes through this type.
#![tactic(auto)]

ghost use Rattle.std.specs.Prelude.{◌≡◌, ◌<◌, eqb};
ghost use Rattle.limits.specs.Limits.{step_limit};
ghost use Rattle.systems.specs.Definitions.{tick};

#[derive(Clone, Copy, PartialEq, Eq, Debug)]
pub struct Step {
    pub number: usize,
}

// The tick.
pub const TICK: Step = Step { number: 0 };

impl Step {
    // The step of a channel, by its number from 1.
    pub fn of_channel(channel: usize) -> Step
        ensures { result.number ≡ channel }
    {
        Step { number: channel }
    }

    // The step of a number that counts the tick and the channels.
    pub fn of_number(number: usize) -> Step
        ensures { result.number ≡ number }
    {
        Step { number }
    }

    // The channel of a step, 0 for the tick, which has none.
    pub fn channel(self) -> usize
        ensures { result ≡ self.number }
    {
        self.number
    }

    // Whether the step is the tick.
    pub fn is_tick(self) -> bool
        ensures { result ≡ eqb self.number tick }
    {
        self.number == TICK.number
    }

    // The step that an entry of a run holds.
    pub fn of_written(entry: u32) -> Step
        ensures { result.number ≡ entry }
    {
        Step {
            number: entry as usize,
        }
    }

    // The step as an entry of a run holds it.
    pub fn written(self) -> u32
        requires { self.number < step_limit }
        ensures { result ≡ self.number }
    {
        self.number as u32
    }
}
