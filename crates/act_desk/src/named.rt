use std::marker::Brand;
use std::sync::ledger::Ledger;

/// Identifies a history: the ledger of its entries, the table at its start, the book that has it, and the key of its first note there. Each
/// call of a program chooses them.
pub trait Named: Ledger {
    ghost use Rattle.std.specs.Prelude.{ℕ};
    ghost use Rattle.logbook.specs.Pages.{Book};
    ghost use Rattle.table_model.specs.TableState.{TableState};

    ghost book: { Book };

    ghost first: { ℕ };

    ghost base: { TableState };
}

impl Named for Brand {
    ghost use Rattle.table_model.specs.Step.{empty};

    ghost book = { record { number = 0; log_name = 0; cells_name = 0 } };

    ghost first = { 0 };

    ghost base = { empty };
}
