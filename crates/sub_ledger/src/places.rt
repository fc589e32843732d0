//! The places of the ledger, one for each number of a subscription.

ghost use Rattle.std.specs.Prelude.{◌≡◌, ◌<◌, length, slice_get};
ghost use Rattle.farm_types.specs.Farm.{changed_at};
ghost use Rattle.sub_ledger.specs.Inside.{state_in, booked_of, set_to, with_more, with_less, CountsCores, TakesCores, GivesCores};

use crate::subs::SubState;
use farm_types::{Cores, SubNo};

/// The subscription of that number, none past the last place.
pub(crate) fn state_at(places: &[Option<SubState>], sub: SubNo) -> Option<SubState>
    ensures { result ≡ state_in (slice_get places.now sub) }
{
    match places.get(usize::from(sub.0)) {
        None => None,
        Some(state) => *state,
    }
}

/// Sets the size and the burst of a subscription. What is booked stays.
pub(crate) fn set_at(places: &mut Vec<Option<SubState>>, sub: SubNo, size: Cores, burst: Cores)
    requires { sub < length places.old.items }
    ensures { places.new.items ≡ changed_at places.old.items sub (set_to size burst) }
{
    let place = usize::from(sub.0);
    places[place] = Some(set_state(&places[place], size, burst));
}

// The state with another size and burst.
fn set_state(state: &Option<SubState>, size: Cores, burst: Cores) -> SubState
    ensures { result ≡ record { size = size; burst = burst; booked = booked_of state.now } }
{
    let booked = match state {
        None => Cores(0),
        Some(state) => state.booked,
    };
    SubState {
        size,
        burst,
        booked,
    }
}

/// Books cores of a subscription, within its burst.
pub(crate) fn add_at(places: &mut Vec<Option<SubState>>, sub: SubNo, cores: Cores)
    requires { TakesCores (state_in (slice_get places.old.items sub)) cores }
    ensures { places.new.items ≡ changed_at places.old.items sub (with_more cores) }
{
    let Some(state) = state_at(places.as_slice(), sub) else {
        unreachable!()
    };
    places[usize::from(sub.0)] = Some(SubState {
        size: state.size,
        burst: state.burst,
        booked: Cores(state.booked.0 + cores.0),
    });
}

/// Counts cores as booked of a subscription, also past its burst.
pub(crate) fn count_at(places: &mut Vec<Option<SubState>>, sub: SubNo, cores: Cores)
    requires { CountsCores (state_in (slice_get places.old.items sub)) cores }
    ensures { places.new.items ≡ changed_at places.old.items sub (with_more cores) }
{
    let Some(state) = state_at(places.as_slice(), sub) else {
        unreachable!()
    };
    let booked = Cores(state.booked.0 + cores.0);
    places[usize::from(sub.0)] = Some(SubState {
        size: state.size,
        burst: state.burst,
        booked,
    });
}

/// Gives back cores that are booked of a subscription.
pub(crate) fn remove_at(places: &mut Vec<Option<SubState>>, sub: SubNo, cores: Cores)
    requires { GivesCores (state_in (slice_get places.old.items sub)) cores }
    ensures { places.new.items ≡ changed_at places.old.items sub (with_less cores) }
{
    let Some(state) = state_at(places.as_slice(), sub) else {
        unreachable!()
    };
    places[usize::from(sub.0)] = Some(SubState {
        size: state.size,
        burst: state.burst,
        booked: Cores(state.booked.0 - cores.0),
    });
}
