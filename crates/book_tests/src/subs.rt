//! The ledger of subscriptions.

use farm_types::{Cores, SubNo};
use std::cmp::Ordering;
use std::test::Fail;
use sub_ledger::Subs;

// Of two subscriptions of one size, the one with nothing booked comes first, in a copy too.
#[test]
fn a_copy_keeps_what_is_set_and_its_order(rt: HostRuntime) -> Result<(), Fail> {
    let mut book = Subs::make(rt.alloc())?;
    book.set(SubNo(0), Cores(100), Cores(200));
    book.set(SubNo(1), Cores(0), Cores(200));
    let copy = book.copy(rt.alloc())?;
    let Some(state) = copy.get(SubNo(0)) else {
        return Err(Fail::from("no subscription"));
    };
    assert_eq!(rt;
        (state.size, state.burst, state.booked),
        (Cores(100), Cores(200), Cores(0))
    );
    assert_eq!(rt; copy.before(SubNo(0), SubNo(1)), Ordering::Less);
    Ok(())
}
