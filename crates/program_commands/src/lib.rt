//! The commands of the program `acts`, over a given reader, disk and writer. `run_script` plays a script and writes one
//! answer for each line that is not empty. `run_check` reads a workflow and writes a line for each leg, and `run_lint`
//! writes one for each fault. `run_init` makes a store on a disk. `run_show` writes what an operator asks to see of a
//! store: its runs, its runners or its queue.
#![tactic(auto)]

mod answer;
mod check;
mod init;
mod input;
mod line;
mod lines;
mod lint;
mod play;
mod show;
mod shown;

pub use answer::{Answer, answer_line, answer_to};
pub use check::run_check;
pub use init::run_init;
pub use input::MAX_BYTES;
pub use lint::run_lint;
pub use play::run_script;
pub use show::run_show;
pub use shown::Shown;
pub use table_views::Form;
