ghost use Rattle.std.specs.Prelude.{◌≡◌, false, IsTrue, Ok, None};
ghost use Rattle.std.specs.List.{list_all};
ghost use Rattle.wf_value.specs.Gives.{Gives};
ghost use Rattle.definitions.specs.SmallText.{is_of_short_length, is_short, short_text_of};

use crate::form::{DeliveryForm, EventForm, Form, LabelForm, RunnerForm};
use crate::utf8::text_of;
use std::alloc::Global;
use std::marker::{Model, PhantomData};
use wf_value::{Chars, Refusal, Same, TryCopy};

/// The maximum length of a small text, in bytes.
pub const MAX_TEXT_BYTES: usize = 64;

/// A text of 1 to 64 bytes, all of which its form allows.
#[derive(Drop)]
pub struct SmallText<F: Form> {
    text: Chars,
    form: PhantomData<F>,
}

impl<F: Form> Model for SmallText<F> {
    ghost use Rattle.std.specs.Prelude.{List, ℕ, IsTrue};
    ghost use Rattle.definitions.specs.SmallText.{is_short};

    ghost Value = { List ℕ };

    ghost view = { λ t. t.text };

    ghost invariant = { λ t. IsTrue (is_short F.allows t.text) };
}

/// The id of an event delivery: letters, digits and `-`.
/// GitHub Docs, "Webhook events and payloads", Delivery headers (`X-GitHub-Delivery`).
pub type DeliveryId = SmallText<DeliveryForm>;

/// The name of an event: lower-case letters, digits and `_`.
/// GitHub Docs, "Webhook events and payloads", Delivery headers (`X-GitHub-Event`).
pub type EventName = SmallText<EventForm>;

/// The name of a runner: letters, digits, `_`, `-` and `.`.
pub type RunnerName = SmallText<RunnerForm>;

/// A label of a runner: printable ASCII bytes except space and comma.
/// GitHub Docs, "Using self-hosted runners in a workflow".
pub type Label = SmallText<LabelForm>;

impl<F: Form> SmallText<F> {
    /// Whether the bytes are a text of the form.
    pub fn is_of_form(text: &[u8]) -> bool
        ensures { result ≡ is_short F.allows text.now }
    {
        is_of_short_length(text) && are_allowed::<F>(text)
    }

    /// Copies the bytes as a text. Bytes of any other form give `None`, which takes no memory.
    /// Promise (Bodies, plans and replies): Delivery ids, event names, runner names and labels are made exactly of texts of their form, and keep
    ///   it; a text of no form is answered memory or not
    /// By: `run_plan::SmallText::of`, `gives`, `answers`; `run_plan::SmallText::copy_of`; `run_plan::SmallText::as_str`, `form`
    /// Refusal (The layers below): `run_plan`: `SmallText::{of, copy_of}`, `Labels::of`, `Prepared::share`, `JobLegs::combination`,
    ///   `LastCommand::reply`, `Reply::text`, `text_of_combo`
    /// When: 50; what is of no form is `None` without memory
    /// Afterwards: nothing is made
    /// By: `gives`, `answers`
    pub fn of(alloc: Global, text: &[u8]) -> Result<Option<Self>, Refusal>
        ensures gives { Gives (λ t. t) result (Ok (short_text_of F.allows text.now)) }
        ensures answers { is_short F.allows text.now ≡ false → result ≡ Ok None }
    {
        if !Self::is_of_form(text) {
            return Ok(None);
        }
        Ok(Some(Self::copy_of(alloc, text)?))
    }

    /// Copies bytes that are a text of the form.
    pub fn copy_of(alloc: Global, text: &[u8]) -> Result<Self, Refusal>
        requires { IsTrue (is_short F.allows text.now) }
        ensures { Gives (λ t. t) result (Ok text.now) }
    {
        Ok(SmallText {
            text: Chars::from_str(alloc, text_of(text))?,
            form: PhantomData,
        })
    }

    pub fn as_str(&self) -> &str
        ensures text { result.now ≡ self.now }
        ensures form { IsTrue (is_short F.allows self.now) }
    {
        self.text.as_str()
    }
}

impl<F: Form> TryCopy for SmallText<F> {
    fn copy(&self, alloc: Global) -> Result<Self, Refusal> {
        Ok(SmallText {
            text: self.text.copy(alloc)?,
            form: PhantomData,
        })
    }
}

impl<F: Form> Same for SmallText<F> {
    fn same(&self, other: &Self) -> bool {
        self.text.same(&other.text)
    }
}

fn is_of_short_length(text: &[u8]) -> bool
    ensures { result ≡ is_of_short_length text.now }
{
    1 <= text.len() && text.len() <= MAX_TEXT_BYTES
}

fn are_allowed<F: Form>(text: &[u8]) -> bool
    ensures { result ≡ list_all F.allows text.now }
{
    text.iter().all(|byte| F::allows(*byte))
}
