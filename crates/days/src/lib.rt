// Days.
#![tactic(auto)]

ghost use Rattle.std.specs.Prelude.{◌≡◌};
ghost use Rattle.days.specs.Days.{is_leap, days_in, is_day, day_fits, dated, before, later};

use strings::{Class, all, number};

// A day as the number YYYYMMDD.
#[derive(Clone, Copy, PartialEq, Eq, PartialOrd, Ord)]
pub struct Day(pub u32);

// Every fourth year, 2000 among them.
fn is_leap(y: u32) -> bool
    ensures { result ≡ is_leap y }
{
    y % 4 == 0
}

// How many days a month has. The calendar stands here alone.
fn days_in(y: u32, m: u32) -> u32
    ensures { result ≡ days_in y m }
{
    match m {
        2 if is_leap(y) => 29,
        2 => 28,
        4 | 6 | 9 | 11 => 30,
        _ => 31,
    }
}

// Whether there is such a day.
#[tactic(auto, unfolding(crate::specs::Days::is_day))]
fn is_day(n: u32) -> bool
    ensures { result ≡ is_day n }
{
    let y = n / 10000;
    let m = n / 100 % 100;
    let d = n % 100;
    matches!(y, 2000..=2099) && matches!(m, 1..=12) && 1 <= d && d <= days_in(y, m)
}

// The day that six bytes write.
#[tactic(auto, unfolding(crate::specs::Days::dated, crate::specs::Days::is_date))]
pub fn day_of(s: &[u8]) -> Option<Day>
    ensures { result ≡ dated s.now }
{
    if s.len() != 6 || !all(Class::Digit, s) {
        return None;
    }
    let n = number(10, 20, s) as u32;
    is_day(n).then_some(Day(n))
}

impl Day {
    // Whether a stored day is one.
    #[tactic(auto, unfolding(crate::specs::Days::day_fits))]
    pub fn fits(self) -> bool
        ensures { result ≡ day_fits self }
    {
        is_day(self.0)
    }

    #[tactic(auto, unfolding(crate::specs::Days::before))]
    pub fn before(self, other: Day) -> bool
        ensures { result ≡ before self other }
    {
        self < other
    }

    // The later of two days.
    #[tactic(auto, unfolding(crate::specs::Days::later))]
    pub fn later(self, other: Day) -> Day
        ensures { result ≡ later self other }
    {
        self.max(other)
    }
}
