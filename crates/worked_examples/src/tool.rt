//! Worked examples of the tool's rules, proved by computing them. The public functions here do nothing.

ghost use Rattle.std.specs.Prelude.{◌≡◌, ◌∷◌, ◌++◌, [], pos, negsuc, true, false, codes, None, Some, Ok, Err};
ghost use Rattle.serde_json.specs.Data.{boolean, number, unsigned, string, array, item, no_items, no_members, member, object};
ghost use Rattle.farm_types.specs.declared.depend.DependKind.TheVariants.{FrameByFrame};
ghost use Rattle.farm_types.specs.declared.states.LockState.TheVariants as lock_state;
ghost use Rattle.farm_types.specs.declared.states.FrameState.TheVariants.{Waiting, Depend};
ghost use Rattle.farm_types.specs.declared.refusal.Counted.TheVariants as counted;
ghost use Rattle.farm_types.specs.declared.refusal.Refusal.TheVariants.{Stale, WrongState, Satisfied, Full, Unknown};
ghost use Rattle.farm_lines.specs.declared.list_row.ListRow.TheVariants as row;
ghost use Rattle.farm_lines.specs.declared.query.Listed.TheVariants as listed;
ghost use Rattle.farm_lines.specs.declared.reply.Reply.TheVariants as reply;
ghost use Rattle.farm_lines.specs.declared.request.Request.TheVariants as request;
ghost use Rattle.farm_lines.specs.ReplyLines.{read_or_none, reply_at};
ghost use Rattle.farm_lines.specs.RequestText.{request_text};
ghost use Rattle.cue_words.specs.declared.asked.ToolWords.TheVariants.{Ask, Help};
ghost use Rattle.cue_words.specs.Commands.{words_of};
ghost use Rattle.cue_words.specs.Parts.{Usage, BadSpec};
ghost use Rattle.cue_tool.specs.Listings.{listing_of};

/// The lists of subscriptions and of limits, whose rows are shorter than the head in some columns; and an empty list, which is its head.
pub fn lists_are_tables()
    ensures subs { listing_of (codes "subs") (record { rows = row.Sub (record { alloc = codes "farm.general"; booked = 600; burst = 200; show = codes "alpha"; size = 1000 }) ∷ []; total = 1 })
        ≡ Some (codes "alloc         booked  burst  show   size" ++ 10 ∷ codes "farm.general  600     200    alpha  1000" ++ 10 ∷ []) }
    ensures limits { listing_of (codes "limits") (record { rows = row.Limit (record { most = 40; name = codes "arnold"; running = 2 }) ∷ []; total = 1 })
        ≡ Some (codes "most  name    running" ++ 10 ∷ codes "40    arnold  2" ++ 10 ∷ []) }
    ensures none { listing_of (codes "shows") (record { rows = []; total = 0 }) ≡ Some (codes "name" ++ 10 ∷ []) }
    ensures other_rows { listing_of (codes "hosts") (record { rows = row.Name (codes "a") ∷ []; total = 1 }) ≡ None }
    ensures no_list { listing_of (codes "host") (record { rows = []; total = 0 }) ≡ None }
{}

/// What a host sends at its start, its second report, a limit, and a list.
pub fn requests_are_texts()
    ensures boot { request_text (request.Boot (record { host = codes "h1"; nonce = 7; alloc = codes "farm.general"; tags = []; cores = 100; memory = 4194304 }))
        ≡ codes "{\"alloc\":\"farm.general\",\"cores\":100,\"host\":\"h1\",\"memory\":4194304,\"nonce\":7,\"op\":\"boot\",\"tags\":[]}" }
    ensures report { request_text (request.Report (record {
      heard = record {
        host = codes "h1";
        boot = 1;
        seq = 2;
        done = record { attempt = record { slot = 0; version = 1 }; exit = record { status = 0; signal = 0 }; free = None } ∷ [];
      };
      running = [];
    }))
        ≡ codes "{\"boot\":1,\"done\":[{\"signal\":0,\"slot\":0,\"status\":0,\"version\":1}],\"host\":\"h1\",\"op\":\"report\",\"running\":[],\"seq\":2}" }
    ensures limit { request_text (request.Limit (codes "arnold") 40) ≡ codes "{\"most\":40,\"name\":\"arnold\",\"op\":\"limit\"}" }
    ensures list { request_text (request.List (record { what = listed.Frames (codes "b"); from = 0 })) ≡ codes "{\"from\":0,\"job\":\"b\",\"op\":\"list\",\"what\":\"frames\"}" }
{}

/// The lines of some words.
pub fn words_are_lines()
    ensures list { words_of (codes "list" ∷ codes "subs" ∷ []) None ≡ Ok (Ask (codes "{\"from\":0,\"op\":\"list\",\"what\":\"subs\"}")) }
    ensures list_of_job { words_of (codes "list" ∷ codes "x" ∷ codes "b" ∷ []) None ≡ Ok (Ask (codes "{\"from\":0,\"job\":\"b\",\"op\":\"list\",\"what\":\"x\"}")) }
    ensures sub { words_of (codes "sub" ∷ codes "alpha" ∷ codes "farm.general" ∷ codes "10" ∷ codes "2.5" ∷ []) None
        ≡ Ok (Ask (codes "{\"alloc\":\"farm.general\",\"burst\":250,\"op\":\"sub\",\"show\":\"alpha\",\"size\":1000}")) }
    ensures limit { words_of (codes "limit" ∷ codes "arnold" ∷ codes "040" ∷ []) None ≡ Ok (Ask (codes "{\"most\":40,\"name\":\"arnold\",\"op\":\"limit\"}")) }
    ensures nimby { words_of (codes "nimby" ∷ codes "h1" ∷ []) None ≡ Ok (Ask (codes "{\"host\":\"h1\",\"lock\":\"NIMBY_LOCKED\",\"op\":\"host\"}")) }
    ensures depend { words_of (codes "depend" ∷ codes "FRAME_BY_FRAME" ∷ codes "all" ∷ codes "p" ∷ codes "w" ∷ codes "on" ∷ codes "p" ∷ codes "t" ∷ []) None
        ≡ Ok (Ask (codes "{\"any\":false,\"job\":\"p\",\"kind\":\"FRAME_BY_FRAME\",\"layer\":\"w\",\"on_job\":\"p\",\"on_layer\":\"t\",\"op\":\"depend\"}")) }
    ensures kill_job { words_of (codes "kill" ∷ codes "j" ∷ []) None ≡ Ok (Ask (codes "{\"job\":\"j\",\"op\":\"kill\"}")) }
    ensures kill_frame { words_of (codes "kill" ∷ codes "j" ∷ codes "l" ∷ codes "-07" ∷ []) None ≡ Ok (Ask (codes "{\"frame\":-7,\"job\":\"j\",\"layer\":\"l\",\"op\":\"kill\"}")) }
    ensures minus_zero { words_of (codes "drop" ∷ codes "-0" ∷ []) None ≡ Ok (Ask (codes "{\"depend\":0,\"op\":\"drop\"}")) }
    ensures tick { words_of (codes "tick" ∷ []) None ≡ Ok (Ask (codes "{\"op\":\"tick\"}")) }
    ensures show { words_of (codes "show" ∷ codes "-v" ∷ []) None ≡ Ok (Ask (codes "{\"name\":\"-v\",\"op\":\"show\"}")) }
    ensures alloc { words_of (codes "alloc" ∷ codes "farm.general" ∷ []) None ≡ Ok (Ask (codes "{\"name\":\"farm.general\",\"op\":\"alloc\"}")) }
    ensures lock { words_of (codes "lock" ∷ codes "h1" ∷ []) None ≡ Ok (Ask (codes "{\"host\":\"h1\",\"lock\":\"LOCKED\",\"op\":\"host\"}")) }
    ensures unlock { words_of (codes "unlock" ∷ codes "h1" ∷ []) None ≡ Ok (Ask (codes "{\"host\":\"h1\",\"lock\":\"OPEN\",\"op\":\"host\"}")) }
    ensures depend_any { words_of (codes "depend" ∷ codes "FRAME_ON_FRAME" ∷ codes "any" ∷ codes "p" ∷ codes "w" ∷ codes "-1" ∷ codes "on" ∷ codes "q" ∷ codes "t" ∷ codes "2" ∷ []) None
        ≡ Ok (Ask (codes "{\"any\":true,\"frame\":-1,\"job\":\"p\",\"kind\":\"FRAME_ON_FRAME\",\"layer\":\"w\",\"on_frame\":2,\"on_job\":\"q\",\"on_layer\":\"t\",\"op\":\"depend\"}")) }
    ensures pause { words_of (codes "pause" ∷ codes "j" ∷ []) None ≡ Ok (Ask (codes "{\"job\":\"j\",\"op\":\"pause\"}")) }
    ensures resume { words_of (codes "resume" ∷ codes "j" ∷ []) None ≡ Ok (Ask (codes "{\"job\":\"j\",\"op\":\"resume\"}")) }
    ensures eat { words_of (codes "eat" ∷ codes "j" ∷ codes "l" ∷ codes "1" ∷ []) None ≡ Ok (Ask (codes "{\"frame\":1,\"job\":\"j\",\"layer\":\"l\",\"op\":\"eat\"}")) }
    ensures retry { words_of (codes "retry" ∷ codes "j" ∷ codes "l" ∷ codes "1" ∷ []) None ≡ Ok (Ask (codes "{\"frame\":1,\"job\":\"j\",\"layer\":\"l\",\"op\":\"retry\"}")) }
{}

/// The first word that is wrong, missing, or one too many.
pub fn words_are_wrong_by_place()
    ensures none { words_of [] None ≡ Err (Usage 0) }
    ensures unknown { words_of (codes "lift" ∷ []) None ≡ Err (Usage 0) }
    ensures missing { words_of (codes "list" ∷ []) None ≡ Err (Usage 1) }
    ensures too_many { words_of (codes "list" ∷ codes "jobs" ∷ codes "a" ∷ codes "b" ∷ []) None ≡ Err (Usage 3) }
    ensures part_of_a_frame { words_of (codes "kill" ∷ codes "j" ∷ codes "l" ∷ []) None ≡ Err (Usage 3) }
    ensures no_number { words_of (codes "drop" ∷ codes "+1" ∷ []) None ≡ Err (Usage 1) }
    ensures eleven_digits { words_of (codes "drop" ∷ codes "00000000001" ∷ []) None ≡ Err (Usage 1) }
    ensures no_cores { words_of (codes "sub" ∷ codes "a" ∷ codes "b" ∷ codes "1." ∷ codes "x" ∷ []) None ≡ Err (Usage 3) }
    ensures no_most { words_of (codes "limit" ∷ codes "arnold" ∷ codes "many" ∷ []) None ≡ Err (Usage 2) }
    ensures no_kind { words_of (codes "depend" ∷ codes "JOB" ∷ []) None ≡ Err (Usage 1) }
    ensures no_on { words_of (codes "depend" ∷ codes "JOB_ON_JOB" ∷ codes "any" ∷ codes "a" ∷ codes "b" ∷ []) None ≡ Err (Usage 4) }
    ensures no_spec { words_of (codes "submit" ∷ codes "f" ∷ []) None ≡ Err BadSpec }
    ensures two_files { words_of (codes "submit" ∷ codes "f" ∷ codes "g" ∷ []) None ≡ Err (Usage 2) }
    ensures lone_minus { words_of (codes "drop" ∷ codes "-" ∷ []) None ≡ Err (Usage 1) }
    ensures no_frame { words_of (codes "eat" ∷ codes "j" ∷ codes "l" ∷ codes "x" ∷ []) None ≡ Err (Usage 3) }
    ensures frame_missing { words_of (codes "retry" ∷ codes "j" ∷ codes "l" ∷ []) None ≡ Err (Usage 3) }
    ensures one_too_many { words_of (codes "tick" ∷ codes "now" ∷ []) None ≡ Err (Usage 1) }
    ensures no_any_or_all { words_of (codes "depend" ∷ codes "JOB_ON_JOB" ∷ codes "each" ∷ codes "a" ∷ codes "on" ∷ codes "b" ∷ []) None ≡ Err (Usage 2) }
    ensures another_word_for_on { words_of (codes "depend" ∷ codes "JOB_ON_JOB" ∷ codes "all" ∷ codes "a" ∷ codes "and" ∷ codes "b" ∷ []) None ≡ Err (Usage 4) }
    ensures no_target { words_of (codes "depend" ∷ codes "JOB_ON_JOB" ∷ codes "all" ∷ codes "a" ∷ codes "on" ∷ []) None ≡ Err (Usage 5) }
    ensures no_file { words_of (codes "submit" ∷ []) None ≡ Err (Usage 1) }
{}

/// A job spec that is handed on, and files that hold none.
pub fn specs_are_handed_on()
    ensures object { words_of (codes "submit" ∷ codes "f" ∷ []) (Some (codes "{ \"show\": \"b\", \"name\": \"a\" }"))
        ≡ Ok (Ask (codes "{\"job\":{\"name\":\"a\",\"show\":\"b\"},\"op\":\"submit\"}")) }
    ensures list { words_of (codes "submit" ∷ codes "f" ∷ []) (Some (codes "[]")) ≡ Err BadSpec }
    ensures no_json { words_of (codes "submit" ∷ codes "f" ∷ []) (Some (codes "a")) ≡ Err BadSpec }
    ensures fraction { words_of (codes "submit" ∷ codes "f" ∷ []) (Some (codes "{\"a\":0.5}")) ≡ Err BadSpec }
{}

/// The help text is one word's.
pub fn help_is_asked_for_by_one_word()
    ensures one { words_of (codes "help" ∷ []) None ≡ Ok Help }
    ensures two { words_of (codes "help" ∷ codes "me" ∷ []) None ≡ Err (Usage 1) }
{}

/// Replies by their members, and members that are no reply.
pub fn replies_are_read()
    ensures done { read_or_none (reply_at (member (codes "ok") (boolean true) no_members)) ≡ Some reply.Done }
    ensures tick { read_or_none (reply_at (member (codes "down") (number (unsigned 1)) (member (codes "lost") (number (unsigned 4)) (member (codes "ok") (boolean true) no_members))))
        ≡ Some (reply.Tick 1 4) }
    ensures limit { read_or_none (reply_at (member (codes "most") (number (unsigned 2)) (member (codes "ok") (boolean true) (member (codes "running") (number (unsigned 3)) no_members))))
        ≡ Some (reply.Limit 2 3) }
    ensures stale { read_or_none (reply_at (member (codes "code") (number (unsigned 6)) (member (codes "last") (number (unsigned 1)) (member (codes "ok") (boolean false)
        (member (codes "why") (string (codes "stale")) no_members))))) ≡ Some (reply.Refused (Stale 1)) }
    ensures other_code { read_or_none (reply_at (member (codes "code") (number (unsigned 5)) (member (codes "last") (number (unsigned 1)) (member (codes "ok") (boolean false)
        (member (codes "why") (string (codes "stale")) no_members))))) ≡ None }
    ensures satisfied { read_or_none (reply_at (member (codes "code") (number (unsigned 11)) (member (codes "ok") (boolean false) (member (codes "state") (string (codes "SATISFIED"))
        (member (codes "why") (string (codes "wrong_state")) no_members))))) ≡ Some (reply.Refused Satisfied) }
    ensures full { read_or_none (reply_at (member (codes "code") (number (unsigned 18)) (member (codes "limit") (number (unsigned 64)) (member (codes "ok") (boolean false)
        (member (codes "what") (string (codes "shows")) (member (codes "why") (string (codes "full")) no_members)))))) ≡ Some (reply.Refused (Full 64 counted.Shows)) }
    ensures rows { read_or_none (reply_at (member (codes "ok") (boolean true) (member (codes "rows") (array (item (object (member (codes "frame") (string (codes "0001-l"))
        (member (codes "retries") (number (unsigned 0)) (member (codes "state") (string (codes "DEPEND")) (member (codes "version") (number (unsigned 1)) no_members))))) no_items))
        (member (codes "total") (number (unsigned 1)) no_members))))
        ≡ Some (reply.List (record { rows = row.Frame (record { frame = codes "0001-l"; retries = 0; state = Depend; version = 1 }) ∷ []; total = 1 })) }
    ensures mixed_rows { read_or_none (reply_at (member (codes "ok") (boolean true) (member (codes "rows") (array (item (object (member (codes "name") (string (codes "a")) no_members))
        (item (object (member (codes "depend") (number (unsigned 1)) (member (codes "kind") (string (codes "JOB_ON_JOB")) (member (codes "satisfied") (boolean true) no_members)))) no_items)))
        (member (codes "total") (number (unsigned 2)) no_members)))) ≡ None }
{}
