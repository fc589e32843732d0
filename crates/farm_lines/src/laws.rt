//! Laws of the definitions of what lines ask. The public functions here do nothing: their contracts are the laws.

ghost use Rattle.std.specs.Prelude.{◌≡◌, ◌<◌, ◌^◌, ℕ, List, Ok};
ghost use Rattle.farm_lines.specs.Asked.{IsFormedAt, asked_of};
ghost use Rattle.farm_lines.specs.Request.{request_of};
ghost use Rattle.farm_lines.specs.declared.request.Request.{Request};

/// The entry of what a line asks, if it makes one, is within its forms and limits, whatever bytes the line has.
pub fn requests_are_formed()
    ensures { (line : List ℕ) (asked : Request) (moment : ℕ) → moment < 2 ^ 64 → request_of line ≡ Ok asked → IsFormedAt moment (asked_of asked) }
{}
