//! The laws: functions that do nothing, whose contracts are the laws.

ghost use Rattle.std.specs.Prelude.{◌≡◌, ◌++◌, ⊤, List, Result};
ghost use Rattle.std.specs.List.{AllByRecursion};
ghost use Rattle.farm_types.specs.Farm.{Farm};
ghost use Rattle.farm_lines.specs.declared.request.Request.{Request};
ghost use Rattle.rqd_core.specs.declared.config.RqdConfig.{RqdConfig};
ghost use Rattle.world_law.specs.declared.event.Event.{Event};
ghost use Rattle.world_law.specs.declared.fault.WorldFault.{WorldFault};
ghost use Rattle.world_law.specs.Happens.{Happen, Happens, IsOfTypes};
ghost use Rattle.world_law.specs.KeptWorld.{CanBegin, IsKeptWorld};
ghost use Rattle.world_law.specs.Outcomes.{HasMemory, Outcome};
ghost use Rattle.world_law.specs.Promises.{KeepsPromises};
ghost use Rattle.world_law.specs.World.{World, made_world};

use recovery_law::rows_say_their_farm;
use reply_law::{answers_are_formed, answers_are_read_back};

/// A world that is made of a farm that the program keeps keeps what every world keeps, whatever hosts it has and whatever operators asked before it.
pub fn made_worlds_are_kept()
    ensures { (f : Farm) (configs : List RqdConfig) (asked : List Request) → CanBegin f configs → IsKeptWorld (made_world f configs asked) }
{}

/// Each event leaves a world that keeps it.
pub fn events_keep_worlds()
    ensures { (w : World) (e : Event) (new : World) → IsKeptWorld w → IsOfTypes e → Happens w e new → IsKeptWorld new }
{
    rows_say_their_farm();
    answers_are_formed();
    answers_are_read_back();
}

/// A world that keeps it keeps its promises.
pub fn worlds_are_as_promised()
    ensures { (w : World) → IsKeptWorld w → KeepsPromises w }
{}

/// So every world that any list of events makes of a made world keeps its promises, and its events are that list.
pub fn worlds_keep_their_promises()
    ensures promises { (f : Farm) (configs : List RqdConfig) (asked : List Request) (es : List Event) (new : World)
        → CanBegin f configs → AllByRecursion IsOfTypes es → Happen (made_world f configs asked) es new → KeepsPromises new }
    ensures events { (w : World) (es : List Event) (new : World) → Happen w es new → new.events ≡ w.events ++ es }
{
    made_worlds_are_kept();
    events_keep_worlds();
    worlds_are_as_promised();
}

/// An event has one outcome, unless memory runs out: it happens in one way, or it has one fault.
pub fn events_have_one_outcome()
    ensures { (w : World) (e : Event) (r s : Result ⊤ WorldFault) (a b : World)
        → Outcome w e r a → Outcome w e s b → HasMemory r → HasMemory s → (s ≡ r) × (b ≡ a) }
{}
