// The levels of headings.
ghost use Rattle.std.specs.Prelude.{◌≡◌, ◌+◌, ◌<◌, ◌&&◌, None, Some, if◌then◌else◌, nat_lt};

use std::marker::Model;

/// The level of a heading, from 1 to 6, which clauses see as this number. CommonMark 0.31.2, section 4.2.
#[derive(Clone, Copy, PartialEq, Eq, Debug)]
pub struct HeadingLevel {
    number: u8,
}

impl Model for HeadingLevel {
    ghost use Rattle.std.specs.Prelude.{ℕ, ◌<◌};

    ghost Value = { ℕ };

    ghost view = { λ level. level.number };

    ghost invariant = { λ level. (0 < level.number) × (level.number < 7) };

    ghost inverse = { λ n. record { number = n } };
}

impl HeadingLevel {
    /// The first level.
    pub fn one() -> HeadingLevel
        ensures { result ≡ 1 }
    {
        HeadingLevel { number: 1 }
    }

    /// The second level.
    pub fn two() -> HeadingLevel
        ensures { result ≡ 2 }
    {
        HeadingLevel { number: 2 }
    }

    /// The level of this number, or None where it is no level.
    pub fn of(number: usize) -> Option<HeadingLevel>
        ensures { result ≡ (if nat_lt 0 number && nat_lt number 7 then Some number else None) }
    {
        if 0 < number && number < 7 {
            Some(HeadingLevel {
                number: number as u8,
            })
        } else {
            None
        }
    }

    /// The ASCII digit of the level.
    pub fn digit(self) -> u8
        ensures value { result ≡ 48 + self }
        ensures within { result < 128 }
    {
        b'0' + self.number
    }
}
