//! The length of a table's encoding in bytes, before it is written.

ghost use Rattle.std.specs.Prelude.{◌≡◌, ◌≤◌, ◌*◌, ◌+◌, length, sum_by};
ghost use Rattle.command_encodings.specs.Lengths.{length_of, text_length};
ghost use Rattle.definitions.specs.Limits.{last_number};
ghost use Rattle.stored_tables.specs.Stored.{stored_table};
ghost use Rattle.table_model.specs.Forgotten.{max_kept_deliveries};
ghost use Rattle.table_text.specs.TableLengths.{count_length, forgotten_length};
ghost use Rattle.table_text.specs.Tables.{table};

use command_encodings::{WORD, small_text_length};
use forgotten_runs::{ForgottenRuns, WorkflowCount};
use run_plan::DeliveryId;
use run_table::Table;

/// The bytes of a repository and of a path, each after its length, and of a number.
fn count_length(count: &WorkflowCount) -> u64
    ensures length { result ≡ count_length count.now }
    ensures most { result ≤ 8589934602 }
{
    WORD + count.repo().len() as u64 + WORD + count.path().len() as u64 + WORD
}

fn counts_length(counts: &[WorkflowCount]) -> u64
    requires { length counts.now ≤ last_number }
    ensures length { result ≡ sum_by count_length counts.now }
    ensures most { result ≤ last_number * 8589934602 }
{
    let mut total = 0;
    for count in counts {
        total += count_length(count);
    }
    total
}

fn deliveries_length(deliveries: &[DeliveryId]) -> u64
    requires { length deliveries.now ≤ max_kept_deliveries }
    ensures length { result ≡ sum_by text_length deliveries.now }
    ensures most { result ≤ max_kept_deliveries * 68 }
{
    let mut total = 0;
    for delivery in deliveries {
        total += small_text_length(delivery);
    }
    total
}

/// The bytes of what is kept of forgotten runs. It walks the counts and the kept deliveries.
fn forgotten_length(forgotten: &ForgottenRuns) -> u64
    ensures length { result ≡ forgotten_length forgotten.now }
    ensures most { result ≤ 8 + last_number * 8589934602 + max_kept_deliveries * 68 }
{
    let _through = forgotten.through();
    let counts = counts_length(forgotten.counts());
    WORD + WORD + counts + deliveries_length(forgotten.deliveries())
}

/// The number of bytes in the encoding of a table. It takes no memory, and walks neither runs nor runners.
pub fn table_length(stored: &Table) -> u64
    requires { length stored.now.runners ≤ 4294967295 }
    ensures { result ≡ length_of table (stored_table stored.now) }
{
    let forgotten = forgotten_length(stored.forgotten());
    let runs = WORD + stored.kept_runs().text_size();
    let runners = WORD + stored.size_of_runners() as u64;
    WORD + forgotten + runs + runners
}
