ghost use Rattle.std.specs.Prelude.{◌≡◌, ◌≤◌};
ghost use Rattle.definitions.specs.Limits.{last_number};
ghost use Rattle.definitions.specs.SmallText.{number_of};

use crate::decimal::decimal_of;
use std::marker::Model;

/// The largest number of a command and of a lease.
pub const LAST_NUMBER: u32 = 999_999_999;

/// A number of a command: 1 to `LAST_NUMBER`.
#[derive(Clone, Copy, PartialEq, Eq)]
pub struct Number {
    value: u32,
}

impl Model for Number {
    ghost use Rattle.std.specs.Prelude.{ℕ, ◌≤◌};
    ghost use Rattle.definitions.specs.Limits.{last_number};

    ghost Value = { ℕ };

    ghost view = { λ n. n.value };

    ghost invariant = { λ n. (1 ≤ n.value) × (n.value ≤ last_number) };

    ghost inverse = { λ n. record { value = n } };
}

impl Number {
    pub fn new(value: u32) -> Self
        requires low { 1 ≤ value }
        requires high { value ≤ last_number }
        ensures { result ≡ value }
    {
        Number { value }
    }

    pub fn get(self) -> u32
        ensures value { result ≡ self }
        ensures low { 1 ≤ result }
        ensures high { result ≤ last_number }
    {
        self.value
    }

    /// Parses a decimal number without a leading zero.
    /// Promise (Bodies, plans and replies): A number is 1 to 999,999,999 in decimal without leading zero, memory or not
    /// By: `run_plan::Number::{of, new, get}`
    #[tactic(auto, using(crate::proofs::Numbers::number_least))]
    pub fn of(text: &[u8]) -> Option<Self>
        ensures { result ≡ number_of text.now }
    {
        let value = decimal_of(text)?;
        if text[0] == b'0' {
            return None;
        }
        Some(Number::new(value))
    }
}
