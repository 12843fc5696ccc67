//! Templates, which are texts with pieces `${{ .. }}`, and their values. GitHub Docs, "Evaluate expressions in workflows and
//! actions" and "Contexts reference".
#![tactic(auto)]

mod bind;
mod bound;
mod case;
mod comparison;
mod context;
mod context_site;
mod flag;
mod grammar;
mod letters;
mod piece;
mod profile;
mod properties;
mod reader;
mod results;
mod scalar_view;
mod template;
mod unread;
mod value;

pub use bind::flag_is_set_by_the_text_true;
pub use bound::{BoundPiece, BoundTemplate};
pub use context::Context;
pub use context_site::ContextSite;
pub use grammar::{a_text_has_one_outcome, spells_one_template};
pub use piece::{Operand, Piece};
pub use properties::Properties;
pub use results::{NeedResults, Needs};
pub use scalar_view::ScalarView;
pub use template::Template;
