ghost use Rattle.std.specs.Prelude.{◌≡◌, ◌++◌, [], Ok, OnOk, string_bytes};
ghost use Rattle.std.specs.List.{flat_map};
ghost use Rattle.wf_value.specs.SpacedText.{spaced};

use crate::chars::Chars;
use crate::code::Code;
use crate::same::Same;
use crate::sequence::Sequence;
use crate::try_copy::TryCopy;
use std::alloc::{AllocError, AllocFailed, Global};
use std::fmt::{self, Write};
use thiserror::Error;

/// Prints each text after a space.
#[derive(Drop)]
struct Spaced<'a>(&'a [Chars]);

impl fmt::Display for Spaced<'_> {
    fn fmt<W: fmt::Write>(&self, f: &mut fmt::Formatter<W>) -> fmt::Result {
        for text in self.0 {
            f.write_str(" ")?;
            f.write_str(text.as_str())?;
        }
        Ok(())
    }
}

/// Appends each text after a space.
fn push_spaced(target: &mut String, texts: &[Chars]) -> Result<(), AllocError>
    ensures { OnOk result (string_bytes target.new ≡ string_bytes target.old ++ flat_map spaced texts.now) }
{
    for text in texts {
        target.push_str(" ")?;
        target.push_str(text.as_str())?;
    }
    Ok(())
}

/// Why a call is refused.
#[derive(Drop, Error)]
pub enum Refusal {
    #[error("refused {}", .0.number())]
    Numbered(Code),
    /// 14: the needs have a cycle. It carries the ids of all jobs that are their own ancestors, in order.
    #[error("refused 14{}", Spaced(.0.as_slice()))]
    Cycle(Sequence<Chars>),
    /// 43: a sequence number or an attempt is out of order. It carries the runner's last number, or the run's current attempt.
    #[error("refused 43 {0}")]
    Turn(u64),
}

impl Refusal {
    ghost use Rattle.wf_value.specs.Gives.{Gives};
    ghost use Rattle.wf_value.specs.RefusalText.{refusal_number, refusal_detail, refusal_text};

    pub fn number(&self) -> u64
        ensures { result ≡ refusal_number self.now }
    {
        match self {
            Refusal::Numbered(code) => code.number(),
            Refusal::Cycle(_) => 14,
            Refusal::Turn(_) => 43,
        }
    }

    /// The printed text: `refused N`, followed by what the refusal carries.
    pub fn text(&self, alloc: Global) -> Result<Chars, Refusal>
        ensures { Gives (λ c. c) result (Ok (refusal_text self.now)) }
    {
        let number = self.number();
        let mut text = format!(in alloc; "refused {number}")?;
        self.push_detail(&mut text)?;
        Ok(Chars::new(text))
    }

    fn push_detail(&self, text: &mut String) -> Result<(), AllocError>
        ensures { OnOk result (string_bytes text.new ≡ string_bytes text.old ++ refusal_detail self.now) }
    {
        match self {
            Refusal::Numbered(_) => Ok(()),
            Refusal::Cycle(ids) => push_spaced(text, ids.as_slice()),
            Refusal::Turn(last) => {
                let last = *last;
                write!(text, " {last}")
            }
        }
    }
}

/// Prints the same as `Display`.
impl fmt::Debug for Refusal {
    fn fmt<W: fmt::Write>(&self, f: &mut fmt::Formatter<W>) -> fmt::Result {
        write!(f, "{self}")
    }
}

impl TryCopy for Refusal {
    ghost use Rattle.wf_value.specs.Gives.{Gives};
    ghost use Rattle.wf_value.specs.RefusalText.{ids_of_cycle};

    /// Only the ids of a cycle take memory.
    fn copy(&self, alloc: Global) -> Result<Self, Refusal>
        ensures gives { Gives (λ r. r) result (Ok self.now) }
        ensures answers { ids_of_cycle self.now ≡ [] → result ≡ Ok self.now }
    {
        match self {
            Refusal::Numbered(code) => Ok(Refusal::Numbered(*code)),
            Refusal::Cycle(ids) => Ok(Refusal::Cycle(ids.copy(alloc)?)),
            Refusal::Turn(last) => Ok(Refusal::Turn(*last)),
        }
    }
}

impl Same for Refusal {
    /// Whether both have the same number and carry the same values.
    fn same(&self, other: &Self) -> bool {
        match (self, other) {
            (Refusal::Numbered(one), Refusal::Numbered(other)) => *one == *other,
            (Refusal::Cycle(one), Refusal::Cycle(other)) => one.same(other),
            (Refusal::Turn(one), Refusal::Turn(other)) => *one == *other,
            _ => false,
        }
    }
}

impl From<AllocError> for Refusal {
    ghost use Rattle.std.specs.Prelude.{◌≡◌};
    ghost use Rattle.wf_value.specs.Gives.{no_memory};

    ghost from_gives = { λ _ e. e ≡ no_memory };

    fn from(_e: AllocError) -> Refusal {
        Refusal::Numbered(Code::NoMemory)
    }
}

impl<T: Drop> From<AllocFailed<T>> for Refusal {
    ghost use Rattle.std.specs.Prelude.{◌≡◌};
    ghost use Rattle.wf_value.specs.Gives.{no_memory};

    ghost from_gives = { λ _ e. e ≡ no_memory };

    fn from(_e: AllocFailed<T>) -> Refusal {
        Refusal::Numbered(Code::NoMemory)
    }
}
