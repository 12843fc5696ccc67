ghost use Rattle.std.specs.Prelude.{◌≡◌, ◌+◌, ◌++◌, ◌∷◌, [], ◌<◌, ◌^◌, IsOkAnd, OnErr, OnOk, Some, length, slice_get, string_bytes};
ghost use Rattle.covered_log.specs.KeptState.{end_of, new_kept, with_room, with_text, without_text};
ghost use Rattle.definitions.specs.Limits.{most_kept};

use std::alloc::{AllocError, Global};
use std::collections::VecDeque;
use std::marker::Model;
use wf_value::{Chars, Refusal};

/// The most lines that are kept.
pub const KEPT: usize = 20_000;

/// The last lines, in order, and how many came before them.
#[derive(Drop)]
pub(crate) struct KeptLines {
    first: u64,
    lines: VecDeque<Chars>,
}

impl Model for KeptLines {
    ghost use Rattle.covered_log.specs.KeptState.{KeptState, AreKept};

    ghost Value = { KeptState };

    ghost view = { λ k. record { first = k.first; lines = k.lines.items } };

    ghost invariant = { λ k. AreKept (record { first = k.first; lines = k.lines.items }) };
}

impl KeptLines {
    pub(crate) fn new(alloc: Global) -> KeptLines
        ensures { result ≡ new_kept }
    {
        KeptLines {
            first: 0,
            lines: VecDeque::new(alloc),
        }
    }

    /// How many lines came before those that are kept.
    pub(crate) fn first(&self) -> u64
        ensures value { result ≡ self.now.first }
        ensures counted { end_of self.now < 2 ^ 64 }
    {
        self.first
    }

    /// How many lines are kept.
    pub(crate) fn len(&self) -> usize
        ensures { result ≡ length self.now.lines }
    {
        self.lines.len()
    }

    /// How many lines there were.
    pub(crate) fn end(&self) -> u64
        ensures { result ≡ end_of self.now }
    {
        self.first + self.lines.len() as u64
    }

    /// The line at an index of those that are kept.
    pub(crate) fn line(&self, index: usize) -> &Chars
        requires { index < length self.now.lines }
        ensures { slice_get self.now.lines index ≡ Some result.now }
    {
        &self.lines[index]
    }

    /// Makes room for one more line: the oldest goes if as many are kept as may be.
    fn make_room(&mut self)
        ensures made { self.new ≡ with_room self.old }
        ensures room { length self.new.lines < most_kept }
    {
        if self.lines.len() >= KEPT {
            let _oldest = self.lines.pop_front();
            self.first += 1;
        }
    }

    /// Adds a line, for which there is room. Without memory it is lost.
    fn push(&mut self, line: Chars) -> Result<(), AllocError>
        requires room { length self.old.lines < most_kept }
        requires counted { end_of self.old + 1 < 2 ^ 64 }
        ensures ok { OnOk result (self.new ≡ record { first = self.old.first; lines = self.old.lines ++ line ∷ [] }) }
        ensures err { OnErr result (self.new ≡ without_text self.old) }
    {
        if self.lines.push_back(line).is_err() {
            self.lose();
            return Err(AllocError);
        }
        Ok(())
    }

    /// A line was lost. None is kept.
    pub(crate) fn lose(&mut self)
        requires { end_of self.old + 1 < 2 ^ 64 }
        ensures { self.new ≡ without_text self.old }
    {
        self.first = self.first + self.lines.len() as u64 + 1;
        self.lines.clear();
    }

    /// Adds a line if there is one and memory for it. Otherwise it is lost.
    pub(crate) fn keep(&mut self, line: Result<String, Refusal>) -> Result<(), AllocError>
        requires { end_of self.old + 1 < 2 ^ 64 }
        ensures ok { OnOk result (IsOkAnd line (λ text. self.new ≡ with_text self.old (string_bytes text))) }
        ensures err { OnErr result (self.new ≡ without_text self.old) }
    {
        match line {
            Ok(text) => {
                self.make_room();
                self.push(Chars::new(text))
            }
            Err(_) => {
                self.lose();
                Err(AllocError)
            }
        }
    }
}
