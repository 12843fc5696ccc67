//! The layouts of an area, and what is read in each.

ghost use Rattle.std.specs.Prelude.{◌≡◌, IfErr, IfOk};
ghost use Rattle.std.specs.Option.{option_map};
ghost use Rattle.wf_value.specs.Gives.{no_memory};
ghost use Rattle.definitions.specs.Format.{ReadsPrefix};
ghost use Rattle.act_store.specs.Layouts.{batch_format, has_command, layout_byte, layout_of, table_format};

use run_plan::Command;
use run_table::Table;
use std::alloc::Global;
use table_text::{
    is_in_first_layout, is_in_second_layout, read_batch, read_first_batch, read_first_table,
    read_second_batch, read_second_table, read_table,
};
use wf_value::Refusal;

/// The layout of an area, named by the byte after its gate.
#[derive(Clone, Copy)]
pub enum Layout {
    /// Runs without attempts, and kept leases without places. It is read and appended to; a checkpoint replaces it.
    First,
    /// Runs with attempts, and kept leases with places; no run is forgotten. It too is read and appended to, and a checkpoint replaces it.
    Second,
    /// What is kept of forgotten runs besides. The layout of new stores and of checkpoints.
    Third,
}

impl Layout {
    /// The layout that a byte names, if any.
    pub(crate) fn of_byte(byte: u8) -> Option<Self>
        ensures { result ≡ layout_of byte }
    {
        match byte {
            1 => Some(Layout::First),
            2 => Some(Layout::Second),
            4 => Some(Layout::Third),
            _ => None,
        }
    }

    /// The byte that names it.
    pub(crate) fn byte(self) -> u8
        ensures { result ≡ layout_byte self }
    {
        match self {
            Layout::First => 1,
            Layout::Second => 2,
            Layout::Third => 4,
        }
    }

    /// Whether it has a command.
    pub(crate) fn has(self, command: &Command) -> bool
        ensures { result ≡ has_command self command.now }
    {
        match self {
            Layout::First => is_in_first_layout(command),
            Layout::Second => is_in_second_layout(command),
            Layout::Third => true,
        }
    }

    /// The table encoded at the start of the bytes, and the bytes after it, or `None` if no prefix encodes one.
    pub(crate) fn read_table(
        self,
        alloc: Global,
        bytes: &[u8],
    ) -> Result<Option<(Table, &[u8])>, Refusal>
        ensures prefix { IfOk result (λ found. ReadsPrefix (table_format self) bytes.now (option_map (λ f. (f.0, f.1.now)) found)) }
        ensures refused { IfErr result (λ e. e ≡ no_memory) }
    {
        match self {
            Layout::First => read_first_table(alloc, bytes),
            Layout::Second => read_second_table(alloc, bytes),
            Layout::Third => read_table(alloc, bytes),
        }
    }

    /// The batch encoded at the start of the bytes, and the bytes after it, or `None` if no prefix encodes one.
    pub(crate) fn read_batch(
        self,
        alloc: Global,
        bytes: &[u8],
    ) -> Result<Option<(Vec<Command>, &[u8])>, Refusal>
        ensures prefix { IfOk result (λ found. ReadsPrefix (batch_format self) bytes.now (option_map (λ f. (f.0.items, f.1.now)) found)) }
        ensures refused { IfErr result (λ e. e ≡ no_memory) }
    {
        match self {
            Layout::First => read_first_batch(alloc, bytes),
            Layout::Second => read_second_batch(alloc, bytes),
            Layout::Third => read_batch(alloc, bytes),
        }
    }
}
