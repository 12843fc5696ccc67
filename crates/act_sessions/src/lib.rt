//! A session over any reader, writer and answerer, under the rules of a protocol. It reads bytes in pieces of any length, submits each
//! command once, and writes the answers.
#![tactic(auto)]

mod answer;
mod error;
mod first_bytes;
mod held_bytes;
mod input;
mod last;
mod laws;
mod output;
mod protocol;
mod recording;
mod request;
mod session;
mod submit;
mod transcript;
mod turn;
mod turn_text;
mod work;

pub use answer::Answer;
pub use first_bytes::take_first_off;
pub use held_bytes::HeldBytes;
pub use last::{ends_by, leaves_open};
pub use laws::{first_part, one_session, one_session_to_its_end, two_parts};
pub use protocol::Protocol;
pub use request::{Demand, FoundRequest, Next, Progress, Request};
pub use session::run;
pub use submit::Submit;
pub use transcript::{Ending, LoggedExchange, Part, SessionFault, Transcript};
pub use turn::{take_turn, text_of_answer};
pub use turn_text::TurnText;
pub use work::Work;
