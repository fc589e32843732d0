//! Worked examples of the life of a host with one core. The public functions here do nothing.

ghost use Rattle.std.specs.Prelude.{◌≡◌, ◌∷◌, [], codes, None, Some, Err, option_map};
ghost use Rattle.serde_json.specs.Find.{get};
ghost use Rattle.farm_types.specs.declared.refusal.Refusal.TheVariants as refusal;
ghost use Rattle.farm_lines.specs.declared.reply.Reply.{Reply};
ghost use Rattle.farm_lines.specs.declared.reply.Reply.TheVariants as reply;
ghost use Rattle.farm_lines.specs.Reply.{reply_data};
ghost use Rattle.farm_lines.specs.Words.{whole};
ghost use Rattle.rqd_core.specs.declared.limits.TheConstants.{LAST_SEQ};
ghost use Rattle.rqd_core.specs.declared.orders.RqdFault.TheVariants as fault;
ghost use Rattle.rqd_core.specs.declared.sent_line.SentLine.TheVariants as sent;
ghost use Rattle.rqd_core.specs.Life.{after_end, after_line, attempts_of, line_of, new_life};
ghost use Rattle.rqd_core.specs.Replies.{code_of, take_read};
ghost use Rattle.worked_examples.specs.Lives.{after, attempt, booted, booting, busy, busy_again, ended, exit, first_orders, host, launch, orders, refused, reporting, starting, told};

/// A boot line, and two reports: an attempt is launched, ends, is reported as done, and its acknowledgement takes it off the list.
pub fn a_life_of_three_lines()
    ensures boot { line_of (new_life host) ≡ codes "{\"alloc\":\"farm.general\",\"cores\":100,\"host\":\"h1\",\"memory\":4194304,\"nonce\":7,\"op\":\"boot\",\"tags\":[]}" }
    ensures first { line_of booted ≡ codes "{\"boot\":1,\"done\":[],\"host\":\"h1\",\"op\":\"report\",\"running\":[],\"seq\":1}" }
    ensures starts { told reporting first_orders ≡ starting (launch 0 100 ∷ []) [] [] }
    ensures runs { attempts_of busy.running ≡ attempt 0 ∷ [] }
    ensures busy { line_of busy ≡ codes "{\"boot\":1,\"done\":[],\"host\":\"h1\",\"op\":\"report\",\"running\":[{\"slot\":0,\"version\":1}],\"seq\":2}" }
    ensures second { line_of (after_end busy (attempt 0) (exit 0 0)) ≡ codes "{\"boot\":1,\"done\":[{\"signal\":0,\"slot\":0,\"status\":0,\"version\":1}],\"host\":\"h1\",\"op\":\"report\",\"running\":[],\"seq\":2}" }
    ensures acknowledged { (after ended (orders 2 (attempt 0 ∷ []) [] [])).finished ≡ [] }
    ensures kept { line_of (after ended (orders 2 [] [] [])) ≡ codes "{\"boot\":1,\"done\":[{\"signal\":0,\"slot\":0,\"status\":0,\"version\":1}],\"host\":\"h1\",\"op\":\"report\",\"running\":[],\"seq\":3}" }
{}

/// A launch of more cores than there are is reported as done, with the free ones. It isn't started when it comes again.
pub fn unfit_launches_are_reported()
    ensures told { told reporting (orders 1 [] [] (launch 0 200 ∷ [])) ≡ starting [] [] (record { attempt = attempt 0; free = 100 } ∷ []) }
    ensures line { line_of (after reporting (orders 1 [] [] (launch 0 200 ∷ []))) ≡ codes "{\"boot\":1,\"done\":[{\"free\":100,\"signal\":0,\"slot\":0,\"status\":286,\"version\":1}],\"host\":\"h1\",\"op\":\"report\",\"running\":[],\"seq\":2}" }
    ensures again { told (after_line (after reporting (orders 1 [] [] (launch 0 200 ∷ [])))) (orders 2 [] [] (launch 0 100 ∷ [])) ≡ starting [] [] [] }
    ensures failed_start { line_of (after_end busy (attempt 0) (exit 1 0)) ≡ codes "{\"boot\":1,\"done\":[{\"signal\":0,\"slot\":0,\"status\":1,\"version\":1}],\"host\":\"h1\",\"op\":\"report\",\"running\":[],\"seq\":2}" }
{}

/// Launches take cores in turn, each once. Kills come before them, and name attempts that run; a stopped attempt keeps its cores until it has ended.
pub fn launches_take_what_is_left()
    ensures in_turn { told reporting (orders 1 [] [] (launch 0 60 ∷ launch 1 60 ∷ launch 2 40 ∷ launch 0 60 ∷ [])) ≡ starting (launch 0 60 ∷ launch 2 40 ∷ []) [] (record { attempt = attempt 1; free = 40 } ∷ []) }
    ensures stopped { told busy_again (orders 2 [] (attempt 0 ∷ attempt 1 ∷ []) (launch 1 10 ∷ [])) ≡ starting [] (attempt 0 ∷ []) (record { attempt = attempt 1; free = 0 } ∷ []) }
    ensures runs_on { attempts_of (after busy_again (orders 2 [] (attempt 0 ∷ []) [])).running ≡ attempt 0 ∷ [] }
    ensures runs { told busy_again (orders 2 [] [] (launch 0 100 ∷ [])) ≡ starting [] [] [] }
    ensures has_finished { told ended (orders 2 [] [] (launch 0 100 ∷ [])) ≡ starting [] [] [] }
    ensures has_been_acknowledged { told ended (orders 2 (attempt 0 ∷ []) [] (launch 0 100 ∷ [])) ≡ starting (launch 0 100 ∷ []) [] [] }
{}

/// A second copy of the first reply, in place of the second one, starts nothing, and changes nothing: the third report follows.
pub fn old_replies_are_not_latest()
    ensures told { told busy_again first_orders ≡ Err (fault.NotLatest 1) }
    ensures same { after busy_again first_orders ≡ busy_again }
    ensures third { line_of (after busy_again first_orders) ≡ codes "{\"boot\":1,\"done\":[],\"host\":\"h1\",\"op\":\"report\",\"running\":[{\"slot\":0,\"version\":1}],\"seq\":3}" }
    ensures twice { told busy first_orders ≡ Err (fault.NotLatest 1) }
    ensures other_boot { told (record reporting { boot = Some 2; awaited = Some (sent.Report 2 1) }) first_orders ≡ Err (fault.NotLatest 1) }
    ensures to_a_boot { told booting first_orders ≡ Err (fault.NotLatest 1) }
    ensures of_another_kind { told reporting reply.Done ≡ Err (fault.NotLatest 0) }
    ensures tick { told booting (reply.Tick 0 0) ≡ Err (fault.NotLatest 0) }
    ensures no_reply { take_read reporting None ≡ record { life = reporting; told = Err fault.NotAReply } }
{}

/// A boot's reply is taken by its nonce, and once.
pub fn boots_are_known_by_their_nonce()
    ensures taken { told booting (reply.Boot 1 7) ≡ starting [] [] [] }
    ensures other_life { told booting (reply.Boot 1 8) ≡ Err (fault.NotLatest 0) }
    ensures waits { after booting (reply.Boot 1 8) ≡ booting }
    ensures twice { told booted (reply.Boot 2 7) ≡ Err (fault.NotLatest 0) }
    ensures to_a_report { told reporting (reply.Boot 2 7) ≡ Err (fault.NotLatest 0) }
{}

/// A refusal is told as the latest line's, once. After a host that is unknown and a wrong boot the boot line comes again, and the lists and the number stay; after a
/// stale report the number is above both.
pub fn refusals_are_told_once()
    ensures unknown { told busy_again (refused (refusal.Unknown (codes "h1"))) ≡ Err (fault.Refused 3) }
    ensures boots_again { line_of (after busy_again (refused (refusal.Unknown (codes "h1")))) ≡ line_of (new_life host) }
    ensures wrong_boot { told busy_again (refused (refusal.WrongBoot 2)) ≡ Err (fault.Refused 5) }
    ensures goes_on { line_of (after (after_line (after busy_again (refused (refusal.WrongBoot 2)))) (reply.Boot 2 7)) ≡ codes "{\"boot\":2,\"done\":[],\"host\":\"h1\",\"op\":\"report\",\"running\":[{\"slot\":0,\"version\":1}],\"seq\":3}" }
    ensures stale { told busy_again (refused (refusal.Stale 9)) ≡ Err (fault.Refused 6) }
    ensures above { (after_line (after busy_again (refused (refusal.Stale 9)))).seq ≡ 10 }
    ensures above_the_last { (after_line (after busy_again (refused (refusal.Stale 1)))).seq ≡ 3 }
    ensures to_a_boot { (after_line (after (after_line (after booting (refused (refusal.Stale 9)))) (reply.Boot 1 7))).seq ≡ 10 }
    ensures store { told reporting reply.Store ≡ Err (fault.Refused 15) }
    ensures store_goes_on { line_of (after reporting reply.Store) ≡ codes "{\"boot\":1,\"done\":[],\"host\":\"h1\",\"op\":\"report\",\"running\":[],\"seq\":2}" }
    ensures twice { told (after reporting reply.Store) reply.Store ≡ Err (fault.NotLatest 0) }
    ensures too_late { told (after reporting reply.Store) first_orders ≡ Err (fault.NotLatest 1) }
    ensures boot_refused { told booting (refused (refusal.Unknown (codes "farm.general"))) ≡ Err (fault.Refused 3) }
{}

/// The code that a refusal is told with is the one that its line shows. The lines of other replies show none.
pub fn codes_are_those_of_lines()
    ensures { (r : Reply) → get (codes "code") (reply_data r) ≡ option_map whole (code_of r) }
{}

/// Where no greater number is left, every later line is the boot line, also once a boot was answered.
pub fn spent_lives_only_boot()
    ensures last { line_of (record booted { seq = 18446744073709551614 }) ≡ codes "{\"boot\":1,\"done\":[],\"host\":\"h1\",\"op\":\"report\",\"running\":[],\"seq\":18446744073709551615}" }
    ensures spent { line_of (after_line (record booted { seq = 18446744073709551614 })) ≡ line_of (new_life host) }
    ensures told { line_of (after reporting (refused (refusal.Stale LAST_SEQ))) ≡ line_of (new_life host) }
    ensures answered { line_of (after (after_line (record booted { seq = LAST_SEQ })) (reply.Boot 1 7)) ≡ line_of (new_life host) }
{}
