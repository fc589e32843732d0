//! The forms of names and tags.

ghost use Rattle.std.specs.Prelude.{◌≡◌};
ghost use Rattle.std.specs.List.{list_all};
ghost use Rattle.farm_types.specs.Forms.{is_name_text, is_name_byte, is_tag_text, is_tag_byte};

use crate::limits::{MOST_NAME, MOST_TAG};

/// Whether the text is a name of a show, job, layer or host: 1 to 64 bytes of ASCII letters, digits, `_`, `.` and `-`.
pub fn is_name(text: &str) -> bool
    ensures { result ≡ is_name_text text.now }
{
    1 <= text.len() && text.len() <= MOST_NAME as usize && are_name_bytes(text.as_bytes())
}

// Whether each byte may stand in a name.
fn are_name_bytes(bytes: &[u8]) -> bool
    ensures { result ≡ list_all is_name_byte bytes.now }
{
    bytes.iter().all(|b| is_name_part(*b))
}

// Whether the byte may stand in a name.
fn is_name_part(byte: u8) -> bool
    ensures { result ≡ is_name_byte byte }
{
    byte.is_ascii_alphanumeric() || byte == b'_' || byte == b'.' || byte == b'-'
}

/// Whether the text is a tag: 1 to 31 bytes of ASCII letters, digits, `_` and `-`.
pub fn is_tag(text: &str) -> bool
    ensures { result ≡ is_tag_text text.now }
{
    1 <= text.len() && text.len() <= MOST_TAG as usize && are_tag_bytes(text.as_bytes())
}

// Whether each byte may stand in a tag.
fn are_tag_bytes(bytes: &[u8]) -> bool
    ensures { result ≡ list_all is_tag_byte bytes.now }
{
    bytes.iter().all(|b| is_tag_part(*b))
}

// Whether the byte may stand in a tag.
fn is_tag_part(byte: u8) -> bool
    ensures { result ≡ is_tag_byte byte }
{
    byte.is_ascii_alphanumeric() || byte == b'_' || byte == b'-'
}
