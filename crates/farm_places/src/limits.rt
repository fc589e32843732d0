//! The limits that a job's layers name.

ghost use Rattle.std.specs.Prelude.{◌≡◌, ◌==◌, ◌||◌, is_some, length, option_map, IfOk};
ghost use Rattle.farm_types.specs.Farm.{limit_from};
ghost use Rattle.farm_types.specs.Faults.{Refuses};
ghost use Rattle.farm_types.specs.Step.{limits_of, unknown_limit};
ghost use Rattle.farm_types.specs.declared.refusal.Refusal.TheVariants.{Unknown};

use farm_books::Books;
use farm_types::{FarmFault, Items, LayerSpec, LimitNo};
use std::alloc::{AllocError, Global};

/// Refuses layers of which one names a limit that isn't there: the name of the first such.
pub fn check_limits(
    alloc: Global,
    books: &Books,
    layers: &Items<LayerSpec>,
) -> Result<(), FarmFault>
    ensures { Refuses (option_map Unknown (unknown_limit books.now.farm.limits layers.now)) result }
{
    check_among(alloc, books, layers.as_slice())
}

// The same of a slice.
fn check_among(alloc: Global, books: &Books, layers: &[LayerSpec]) -> Result<(), FarmFault>
    ensures { Refuses (option_map Unknown (unknown_limit books.now.farm.limits layers.now)) result }
{
    for layer in layers {
        if is_known(books, layer) {
            continue;
        }
        return Err(FarmFault::unknown(alloc, &layer.limit));
    }
    Ok(())
}

// Whether the layer names no limit, or one that is there.
fn is_known(books: &Books, layer: &LayerSpec) -> bool
    ensures { result ≡ (length layer.now.limit == 0 || is_some (limit_from 0 layer.now.limit books.now.farm.limits)) }
{
    let name = layer.limit.as_str();
    name.is_empty() || books.limit_named(name).is_some()
}

/// The number of the limit that each layer names, none where it names none.
pub fn limits_of(
    alloc: Global,
    books: &Books,
    layers: &Items<LayerSpec>,
) -> Result<Items<Option<LimitNo>>, AllocError>
    ensures { IfOk result (λ limits. limits ≡ limits_of books.now.farm.limits layers.now) }
{
    limits_among(alloc, books, layers.as_slice())
}

// The same of a slice.
fn limits_among(
    alloc: Global,
    books: &Books,
    layers: &[LayerSpec],
) -> Result<Items<Option<LimitNo>>, AllocError>
    ensures { IfOk result (λ limits. limits ≡ limits_of books.now.farm.limits layers.now) }
{
    let mut limits = Items::new(alloc);
    for layer in layers {
        limits.push(books.limit_named(layer.limit.as_str()))?;
    }
    Ok(limits)
}
