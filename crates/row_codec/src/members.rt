//! Members of rows: lists of texts, numbers with a sign, and members that may be left out.

ghost use Rattle.std.specs.Prelude.{◌≡◌, ◌∷◌, OnOk, option_map, true};
ghost use Rattle.json.specs.Token.{key};
ghost use Rattle.serde_json.specs.Data.{Members};
ghost use Rattle.serde_json.specs.Data as data_of;
ghost use Rattle.object_writer.specs.Tokens.{added, fields_tokens, tokens_of};
ghost use Rattle.object_writer.specs.Written.{is_plain};
ghost use Rattle.row_codec.specs.RowFields.{field_if, signed, texts};

use farm_types::{Items, Text};
use object_writer::ObjectWriter;
use std::alloc::AllocError;

/// A member that is a list of texts.
pub fn write_texts(
    out: &mut ObjectWriter,
    name: &str,
    values: &Items<Text>,
) -> Result<(), AllocError>
    requires { is_plain name.now ≡ true }
    ensures { OnOk result (out.new ≡ added out.old (key name.now ∷ tokens_of (texts values.now))) }
{
    out.begin_list(name)?;
    for value in values.as_slice() {
        out.text_item(value.as_str())?;
    }
    out.end_list()
}

/// A member that is a whole number with a sign.
#[inline(always)]
#[tactic(auto, using(crate::proofs::Numbers::signed_text))]
pub fn write_signed(out: &mut ObjectWriter, name: &str, value: i32) -> Result<(), AllocError>
    requires { is_plain name.now ≡ true }
    ensures { OnOk result (out.new ≡ added out.old (key name.now ∷ tokens_of (signed value))) }
{
    out.signed(name, value)
}

/// A member that is a whole number with a sign, where there is one.
#[inline(always)]
pub fn write_signed_if(
    out: &mut ObjectWriter,
    name: &str,
    value: Option<i32>,
) -> Result<(), AllocError>
    requires { is_plain name.now ≡ true }
    ensures { OnOk result ((rest : Members) → added out.new (fields_tokens rest)
        ≡ added out.old (fields_tokens (field_if name.now (option_map signed value) rest))) }
{
    match value {
        Some(value) => write_signed(out, name, value),
        None => Ok(()),
    }
}

/// A member that is a text, where there is one.
#[inline(always)]
pub fn write_text_if(
    out: &mut ObjectWriter,
    name: &str,
    value: &Option<Text>,
) -> Result<(), AllocError>
    requires { is_plain name.now ≡ true }
    ensures { OnOk result ((rest : Members) → added out.new (fields_tokens rest)
        ≡ added out.old (fields_tokens (field_if name.now (option_map data_of.string value.now) rest))) }
{
    match value {
        Some(value) => out.text(name, value.as_str()),
        None => Ok(()),
    }
}
