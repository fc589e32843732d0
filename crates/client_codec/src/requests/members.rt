//! Members of requests: lists of texts, and members that may be left out.

ghost use Rattle.std.specs.Prelude.{◌≡◌, ◌∷◌, OnOk, true};
ghost use Rattle.json.specs.Token.{key};
ghost use Rattle.serde_json.specs.Data.{Members};
ghost use Rattle.farm_lines.specs.RequestText.{texts_data, with_signed, with_text, with_whole};
ghost use Rattle.farm_lines.specs.Words.{signed};
ghost use Rattle.object_writer.specs.Tokens.{added, fields_tokens, tokens_of};
ghost use Rattle.object_writer.specs.Written.{is_plain};

use farm_types::{Cores, Text};
use object_writer::ObjectWriter;
use std::alloc::AllocError;

/// A member that is a list of texts.
pub fn write_texts(out: &mut ObjectWriter, name: &str, texts: &[Text]) -> Result<(), AllocError>
    requires { is_plain name.now ≡ true }
    ensures { OnOk result (out.new ≡ added out.old (key name.now ∷ tokens_of (texts_data texts.now))) }
{
    out.begin_list(name)?;
    for text in texts {
        out.text_item(text.as_str())?;
    }
    out.end_list()
}

/// A member that is the number of a frame.
#[tactic(auto, using(crate::proofs::AskedLemmas::RequestTokens::signed_tokens))]
pub fn write_frame_number(out: &mut ObjectWriter, name: &str, number: i32) -> Result<(), AllocError>
    requires { is_plain name.now ≡ true }
    ensures { OnOk result (out.new ≡ added out.old (key name.now ∷ tokens_of (signed number))) }
{
    out.signed(name, number)
}

/// A member that is the number of a frame, where there is one.
#[tactic(auto, using(crate::proofs::AskedLemmas::RequestTokens::member_rest))]
pub fn write_frame_if(
    out: &mut ObjectWriter,
    name: &str,
    number: Option<i32>,
) -> Result<(), AllocError>
    requires { is_plain name.now ≡ true }
    ensures { OnOk result ((rest : Members) → added out.new (fields_tokens rest) ≡ added out.old (fields_tokens (with_signed name.now number rest))) }
{
    match number {
        Some(number) => write_frame_number(out, name, number),
        None => Ok(()),
    }
}

/// A member that is a text, where there is one.
#[tactic(auto, using(crate::proofs::AskedLemmas::RequestTokens::member_rest))]
pub fn write_text_if(
    out: &mut ObjectWriter,
    name: &str,
    text: &Option<Text>,
) -> Result<(), AllocError>
    requires { is_plain name.now ≡ true }
    ensures { OnOk result ((rest : Members) → added out.new (fields_tokens rest) ≡ added out.old (fields_tokens (with_text name.now text.now rest))) }
{
    match text {
        Some(text) => out.text(name, text.as_str()),
        None => Ok(()),
    }
}

/// A member that is an amount of cores, in hundredths of a core, where there is one.
#[tactic(auto, using(crate::proofs::AskedLemmas::RequestTokens::member_rest))]
pub fn write_cores_if(
    out: &mut ObjectWriter,
    name: &str,
    cores: Option<Cores>,
) -> Result<(), AllocError>
    requires { is_plain name.now ≡ true }
    ensures { OnOk result ((rest : Members) → added out.new (fields_tokens rest) ≡ added out.old (fields_tokens (with_whole name.now cores rest))) }
{
    match cores {
        Some(cores) => out.cores(name, cores),
        None => Ok(()),
    }
}
