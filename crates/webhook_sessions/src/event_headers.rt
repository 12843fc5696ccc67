ghost use Rattle.std.specs.Prelude.{◌≡◌, IfOk, IsTrue};
ghost use Rattle.std.specs.Result.{result_map_both};
ghost use Rattle.http1.specs.Fields.{values_named};
ghost use Rattle.definitions.specs.SmallText.{is_short, is_delivery_byte, is_event_byte};
ghost use Rattle.webhook_sessions.specs.EventHeaders.{event_headers, one_of_form};

use crate::fault::Fault;
use crate::fields::Fields;
use crate::occurrence::Occurrence;
use run_plan::{DeliveryForm, EventForm, Form, SmallText};

/// The delivery id and the event name in a head.
#[derive(Clone, Copy)]
pub struct EventHeaders<'a> {
    pub delivery: &'a [u8],
    pub event: &'a [u8],
}

/// The value of the only field with this name, which is a small text of the form.
fn one_of_form<'a, F: Form>(fields: &Fields<'a>, name: &[u8]) -> Result<&'a [u8], Fault>
    ensures value { result_map_both (λ v. v.now) (λ e. e) result ≡ one_of_form F.allows (values_named name.now fields.now) }
    ensures form { IfOk result (λ v. IsTrue (is_short F.allows v.now)) }
{
    match fields.named(name) {
        Occurrence::Once(value) if SmallText::<F>::is_of_form(value) => Ok(value),
        _ => Err(Fault::EventHeader),
    }
}

/// The delivery id and the event name in the fields of a head.
pub fn event_headers<'a>(fields: &Fields<'a>) -> Result<EventHeaders<'a>, Fault>
    ensures values { result_map_both (λ h. (h.delivery.now, h.event.now)) (λ e. e) result ≡ event_headers fields.now }
    ensures delivery { IfOk result (λ h. IsTrue (is_short is_delivery_byte h.delivery.now)) }
    ensures event { IfOk result (λ h. IsTrue (is_short is_event_byte h.event.now)) }
{
    let delivery = one_of_form::<DeliveryForm>(fields, b"x-github-delivery")?;
    let event = one_of_form::<EventForm>(fields, b"x-github-event")?;
    Ok(EventHeaders { delivery, event })
}
