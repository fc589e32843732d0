//! Texts whose blanks count, or that are empty.

/// The text between two quotes, or the text.
pub fn unquoted(text: &str) -> &str {
    match text.strip_prefix('"') {
        Some(rest) => rest.strip_suffix('"').unwrap_or(text),
        None => text,
    }
}
