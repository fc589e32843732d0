//! Which hosts a layer's tags match.

ghost use Rattle.std.specs.Prelude.{◌≡◌, ◌++◌, ◌∷◌, [], bytes_eq};
ghost use Rattle.std.specs.List.{list_any};
ghost use Rattle.farm_types.specs.Booking.{share_tag};

use farm_types::{Items, Text};

/// Whether a layer's tags share a word with a host's: its own, and its allocation's tag.
pub fn matches(host: &Items<Text>, alloc_tag: &str, layer: &Items<Text>) -> bool
    ensures { result ≡ share_tag layer.now (host.now ++ alloc_tag.now ∷ []) }
{
    layer
        .as_slice()
        .iter()
        .any(|tag| has_tag(host, alloc_tag, tag))
}

// Whether the tag is a host's: one of its own, or its allocation's.
fn has_tag(host: &Items<Text>, alloc_tag: &str, tag: &Text) -> bool
    ensures { result ≡ list_any (λ y. bytes_eq tag.now y) (host.now ++ alloc_tag.now ∷ []) }
{
    is_among(tag, host.as_slice()) || tag.is(alloc_tag)
}

// Whether the tag is one of these.
fn is_among(tag: &Text, tags: &[Text]) -> bool
    ensures { result ≡ list_any (λ y. bytes_eq tag.now y) tags.now }
{
    tags.iter().any(|y| tag.is(y.as_str()))
}
