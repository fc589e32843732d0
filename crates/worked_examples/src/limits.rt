//! The limits that the definitions cite from the code, as the documents tell them.

ghost use Rattle.std.specs.Prelude.{◌≡◌};
ghost use Rattle.cue_io.specs.declared.limits.TheConstants.{BYTE_LIMIT};
ghost use Rattle.farm_gen.specs.declared.limits.TheConstants.{MOST_LOAD};
ghost use Rattle.farm_lines.specs.declared.limits.TheConstants.{LAUNCHES_EACH, LINE_LIMIT, MOST_BOOKED, REPLY_LIMIT, ROWS_EACH};
ghost use Rattle.farm_load.specs.declared.limits.TheConstants.{HOSTS, MOST_ROUNDS};
ghost use Rattle.farm_types.specs.declared.limits.TheConstants as farm;
ghost use Rattle.rqd_core.specs.declared.limits.TheConstants.{UNFIT_STATUS};

/// Lines, replies, sessions and loads.
pub fn limits_of_calls_are_as_documented()
    ensures session { BYTE_LIMIT ≡ 1099511627776 }
    ensures line { LINE_LIMIT ≡ 1048576 }
    ensures reply { REPLY_LIMIT ≡ 16777216 }
    ensures rows { ROWS_EACH ≡ 1000 }
    ensures launches { LAUNCHES_EACH ≡ 64 }
    ensures booked { MOST_BOOKED ≡ 4096000000 }
    ensures load { MOST_LOAD ≡ 5000 }
    ensures load_hosts { HOSTS ≡ 4 }
    ensures load_rounds { MOST_ROUNDS ≡ 20000 }
    ensures unfit { UNFIT_STATUS ≡ 286 }
{}

/// The farm.
pub fn limits_of_the_farm_are_as_documented()
    ensures hosts { farm.MOST_HOSTS ≡ 4096 }
    ensures slots { farm.SLOT_LIMIT ≡ 65536 }
    ensures versions { farm.LAST_VERSION ≡ 16777215 }
    ensures frames { farm.MOST_FRAMES ≡ 10000 }
    ensures layers { farm.MOST_LAYERS ≡ 64 }
    ensures command { farm.MOST_COMMAND ≡ 4096 }
    ensures depends { farm.MOST_DEPENDS ≡ 16384 }
    ensures groups { farm.MOST_GROUPS ≡ 1000000 }
    ensures finished { farm.MOST_FINISHED ≡ 1000 }
    ensures silent { farm.SILENT_SECONDS ≡ 300 }
    ensures limits { farm.MOST_LIMITS ≡ 255 }
    ensures running { farm.MOST_RUNNING ≡ 65536 }
    ensures candidates { farm.CANDIDATES_EACH ≡ 64 }
    ensures bookings { farm.BOOKINGS_EACH ≡ 12 }
{}
