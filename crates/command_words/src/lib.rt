//! The command line of the program `acts`: the requests that `clap` makes of its words, and the texts of its help and of `acts explain`.
#![tactic(auto)]

mod commit;
mod explain;
mod making;
mod message;
mod requests;
mod serving;
mod storing;
mod viewing;

pub use commit::VERSION;
pub use explain::{Explanation, numbers};
pub use message::{Message, Unparsed};
pub use requests::{Request, not_text, parse};
pub use serving::{Serving, Sessions, Span};
pub use storing::{AreaLength, Growth};
pub use viewing::{RunId, Shown, View};
