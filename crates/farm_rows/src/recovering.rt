//! Worked examples of recovery, proved by computing them. The public functions here do nothing.

ghost use Rattle.std.specs.Prelude.{◌≡◌, [], Ok, Err};
ghost use Rattle.farm_types.specs.Farm.{empty_farm};
ghost use Rattle.farm_rows.specs.Recovery.{farm_said};
ghost use Rattle.farm_rows.specs.RecoveryExamples.{down_host, lacking_a_frame, lacking_a_limit, old_farm, said_in, said_of, whole_farm, without_blocking, without_the_show};

/// No rows are the empty farm, and a farm's rows give it back, in format 1 too where it has no limits.
pub fn rows_give_the_farm_back()
    ensures none { farm_said [] ≡ Ok (record { farm = empty_farm; format = 2 }) }
    ensures whole { said_of whole_farm ≡ Ok (record { farm = whole_farm; format = 2 }) }
    ensures old { said_in 1 old_farm ≡ Ok (record { farm = old_farm; format = 1 }) }
{}

/// The first row at fault is named: a subscription of no show, a running frame whose host is in another boot, a layer whose number has no frame, a
/// frame that waits though it waits for another, a layer whose limit isn't there, and a limit in a store of format 1.
pub fn rows_at_fault_are_named()
    ensures show { said_of without_the_show ≡ Err (4, 0) }
    ensures boot { said_of down_host ≡ Err (8, 0) }
    ensures number { said_of lacking_a_frame ≡ Err (7, 193) }
    ensures open { said_of without_blocking ≡ Err (8, 1) }
    ensures limit { said_of lacking_a_limit ≡ Err (7, 193) }
    ensures new { said_in 1 whole_farm ≡ Err (11, 0) }
{}
