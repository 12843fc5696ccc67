ghost use Rattle.std.specs.Prelude.{◌≡◌, ◌<◌, ℕ, Bool, true};
ghost use Rattle.std.proofs.Common.{arith};
ghost use Rattle.std.proofs.lemmas.Grind.{common_steps};
ghost use Rattle.definitions.specs.SmallText.{is_delivery_byte, is_event_byte, is_label_byte, is_runner_byte};

/// The form of a short text: the set of bytes that it may contain.
pub trait Form {
    ghost allows: { ℕ → Bool };

    fn allows(byte: u8) -> bool
        ensures { result ≡ allows byte };

    ghost is_ascii: { (b : ℕ) → allows b ≡ true → b < 128 };
}

/// Letters, digits and `-`.
#[derive(Drop)]
pub struct DeliveryForm;

impl Form for DeliveryForm {
    ghost allows = { is_delivery_byte };

    fn allows(byte: u8) -> bool {
        byte.is_ascii_alphanumeric() || byte == b'-'
    }

    ghost is_ascii = { λ b h. Prim.grind (arith, common_steps) };
}

/// Lower-case letters, digits and `_`.
#[derive(Drop)]
pub struct EventForm;

impl Form for EventForm {
    ghost allows = { is_event_byte };

    fn allows(byte: u8) -> bool {
        byte.is_ascii_lowercase() || byte.is_ascii_digit() || byte == b'_'
    }

    ghost is_ascii = { λ b h. Prim.grind (arith, common_steps) };
}

/// Letters, digits, `_`, `-` and `.`.
#[derive(Drop)]
pub struct RunnerForm;

impl Form for RunnerForm {
    ghost allows = { is_runner_byte };

    fn allows(byte: u8) -> bool {
        byte.is_ascii_alphanumeric() || byte == b'_' || byte == b'-' || byte == b'.'
    }

    ghost is_ascii = { λ b h. Prim.grind (arith, common_steps) };
}

/// Printable ASCII bytes except space and comma.
#[derive(Drop)]
pub struct LabelForm;

impl Form for LabelForm {
    ghost allows = { is_label_byte };

    fn allows(byte: u8) -> bool {
        byte.is_ascii_graphic() && byte != b','
    }

    ghost is_ascii = { λ b h. Prim.grind (arith, common_steps) };
}
