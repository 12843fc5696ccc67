ghost use Rattle.std.specs.Prelude.{◌≡◌, ◌++◌, IfOk, Ok, OnOk, string_bytes};
ghost use Rattle.json.specs.Tree.{json_tokens};
ghost use Rattle.serde_json.specs.Written.{outline};
ghost use Rattle.wf_value.specs.Gives.{Gives};
ghost use Rattle.run_plan.specs.ReplyText.{combo_text, scalar_json};

use json::Writer;
use std::alloc::{AllocError, Global};
use wf_value::{Chars, Combo, Refusal, Scalar};

/// A combination as compact JSON, with its members in byte order of their names. RFC 8259.
pub fn text_of_combo(alloc: Global, combo: &Combo) -> Result<Chars, Refusal>
    ensures { Gives (λ t. t) result (Ok (combo_text combo.now)) }
{
    Ok(Chars::new(printed(alloc, combo)?))
}

/// The text as a `String`; the writer produces UTF-8.
fn printed(alloc: Global, combo: &Combo) -> Result<String, AllocError>
    ensures { IfOk result (λ s. string_bytes s ≡ combo_text combo.now) }
{
    let mut writer = Writer::new(Vec::new(alloc));
    writer.begin_object()?;
    for (name, scalar) in combo.as_slice() {
        writer.key(name.as_str())?;
        write_scalar(&mut writer, scalar)?;
    }
    writer.end_object()?;
    Ok(String::from_utf8(writer.into_inner()).unwrap())
}

/// Appends a value to what is written so far.
fn write_scalar(writer: &mut Writer, scalar: &Scalar) -> Result<(), AllocError>
    ensures tokens { OnOk result (writer.new.tokens
        ≡ writer.old.tokens ++ json_tokens (outline (scalar_json scalar.now))) }
    ensures before { writer.new.before ≡ writer.old.before }
{
    match scalar {
        Scalar::Null => writer.null(),
        Scalar::Truth(truth) => writer.boolean(*truth),
        Scalar::Whole(whole) => writer.i64(*whole),
        Scalar::Text(text) => writer.string(text.as_str()),
    }
}
