//! Whether two names of allocations are the same, without putting them together.

ghost use Rattle.std.specs.Prelude.{◌≡◌, ◌∷◌, bytes_eq};
ghost use Rattle.farm_types.specs.Farm.{alloc_name};

/// Whether the facility, a point and the tag make the name.
pub(crate) fn is_joined(facility: &[u8], tag: &[u8], name: &[u8]) -> bool
    ensures { result ≡ bytes_eq (alloc_name facility.now tag.now) name.now }
{
    match name.strip_prefix(facility) {
        None => false,
        Some(rest) => is_point_and(tag, rest),
    }
}

// Whether a point and the tag make the text.
fn is_point_and(tag: &[u8], text: &[u8]) -> bool
    ensures { result ≡ bytes_eq (46 ∷ tag.now) text.now }
{
    match text.split_first() {
        None => false,
        Some((point, rest)) => *point == b'.' && tag == rest,
    }
}

/// Whether two facilities and tags make the same name. A facility may itself have a point, so one of them may go on into
/// the other's tag.
pub(crate) fn is_same_name(facility: &[u8], tag: &[u8], other: &[u8], other_tag: &[u8]) -> bool
    ensures { result ≡ bytes_eq (alloc_name facility.now tag.now) (alloc_name other.now other_tag.now) }
{
    if let Some(more) = other.strip_prefix(facility) {
        return goes_on(tag, more, other_tag);
    }
    match facility.strip_prefix(other) {
        None => false,
        Some(more) => goes_on(other_tag, more, tag),
    }
}

// Whether a point and the first tag are what is more in the second facility, a point and the second tag.
fn goes_on(tag: &[u8], more: &[u8], other_tag: &[u8]) -> bool
    ensures { result ≡ bytes_eq (46 ∷ tag.now) (alloc_name more.now other_tag.now) }
{
    match more.split_first() {
        None => tag == other_tag,
        Some((point, rest)) => *point == b'.' && is_joined(rest, other_tag, tag),
    }
}
