//! Laws of stated farms. The public functions here do nothing: their contracts are the laws.

ghost use Rattle.std.specs.Prelude.{ℕ};
ghost use Rattle.farm_types.specs.Farm.{empty_farm};
ghost use Rattle.farm_types.specs.Run.{IsLegal};
ghost use Rattle.farm_gen.specs.Load.{IsLoad, load_entries};

/// The entries of a load are a legal run from the farm of no rows.
pub fn loads_are_runs()
    ensures { (n : ℕ) → IsLoad n → IsLegal empty_farm (load_entries n) }
{}
