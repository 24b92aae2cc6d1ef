// What a staged table waits for.
ghost use Rattle.std.specs.Prelude.{◌≡◌, ◌<◌};
ghost use Rattle.pending.specs.Kinds.{kind_number};
ghost use Rattle.pending.specs.Triggers.{kind_of, date_named, second_named, is_well_formed, span_of, due_when, due_of, second_agrees, second_of_due};

use crate::kind::Kind;
use calendar::{DateTime, seconds};

#[derive(Clone, Copy, PartialEq, Eq, Debug)]
pub enum Trigger {
    // A date-time, at second 0.
    Absolute {
        year: u8,
        month: u8,
        day: u8,
        hour: u8,
        minute: u8,
    },
    // A span of time from the staging on.
    Relative {
        weeks: u8,
        days: u8,
        hours: u8,
        minutes: u8,
        seconds: u8,
    },
    // A procedure.
    OnCommand,
}

// When a staged table takes force. No `Option<u32>`: `due` would answer one inside another.
#[derive(Clone, Copy, PartialEq, Eq, Debug)]
pub enum Due {
    // As soon as the clock is not below this second.
    At(u32),
    // Never by itself.
    ByCommand,
}

// The seconds of a relative trigger.
fn span(weeks: u8, days: u8, hours: u8, minutes: u8, seconds: u8) -> u32
    ensures value { result ≡ span_of weeks days hours minutes seconds }
    ensures bound { result < 180000000 }
{
    let days = u32::from(weeks) * 7 + u32::from(days);
    let hours = days * 24 + u32::from(hours);
    let minutes = hours * 60 + u32::from(minutes);
    minutes * 60 + u32::from(seconds)
}

impl Trigger {
    // The date-time that an absolute trigger names.
    fn date(&self) -> Option<DateTime>
        ensures { result ≡ date_named self.now }
    {
        match *self {
            Trigger::Absolute {
                year,
                month,
                day,
                hour,
                minute,
            } => Some(DateTime {
                year,
                month,
                day,
                hour,
                minute,
                second: 0,
            }),
            _ => None,
        }
    }

    pub fn kind(&self) -> Kind
        ensures { kind_number result ≡ kind_of self.now }
    {
        match self {
            Trigger::Absolute { .. } => Kind::Absolute,
            Trigger::Relative { .. } => Kind::Relative,
            Trigger::OnCommand => Kind::OnCommand,
        }
    }

    // The second that an absolute trigger names, if the calendar has it.
    fn second(&self) -> Option<u32>
        ensures { result ≡ second_named self.now }
    {
        self.date()?.to_second()
    }

    // Whether it can be staged at some clock: a date-time has to be real.
    pub fn is_well_formed(&self) -> bool
        ensures { result ≡ is_well_formed self.now }
    {
        match self.date() {
            Some(date) => date.is_real(),
            None => true,
        }
    }

    // When a table that is staged at this clock takes force; none if there is no such second.
    pub fn due(&self, clock: u32) -> Option<Due>
        ensures { result ≡ due_when self.now clock }
    {
        match *self {
            Trigger::Absolute { .. } => {
                let second = self.second()?;
                Some(Due::At(second))
            }
            Trigger::Relative {
                weeks,
                days,
                hours,
                minutes,
                seconds: rest,
            } => {
                let second = clock.checked_add(span(weeks, days, hours, minutes, rest))?;
                (second < seconds()).then_some(Due::At(second))
            }
            Trigger::OnCommand => Some(Due::ByCommand),
        }
    }

    // Whether a row that waits for it may have this second: the one that is named, any of the calendar, or 0.
    pub fn agrees_with(&self, second: u32) -> bool
        ensures { result ≡ second_agrees self.now second }
    {
        match *self {
            Trigger::Absolute { .. } => self.second() == Some(second),
            Trigger::Relative { .. } => second < seconds(),
            Trigger::OnCommand => second == 0,
        }
    }

    // When a row that waits for it and has this second is due.
    pub fn due_at(&self, second: u32) -> Due
        ensures { result ≡ due_of self.now second }
    {
        match self {
            Trigger::Absolute { .. } => Due::At(second),
            Trigger::Relative { .. } => Due::At(second),
            Trigger::OnCommand => Due::ByCommand,
        }
    }
}

impl Due {
    // The second, and 0 where there is none.
    pub fn second(&self) -> u32
        ensures { result ≡ second_of_due self.now }
    {
        match *self {
            Due::At(second) => second,
            Due::ByCommand => 0,
        }
    }
}
