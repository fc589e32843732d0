//! Worked examples of the rules over the farm of the demonstration, proved by computing them. The public functions here do nothing.
#![tactic(auto, unfolding(farm_types::specs::Settle::settle, farm_types::specs::Step::finish_all))]

ghost use Rattle.std.specs.Prelude.{◌≡◌, ◌∷◌, [], pos, codes, drop, take, None, Some};
ghost use Rattle.farm_types.specs.declared.answer.Answer.TheVariants as answer;
ghost use Rattle.farm_types.specs.declared.states.FrameState.TheVariants.{Waiting};
ghost use Rattle.farm_types.specs.declared.refusal.Refusal.TheVariants.{Unknown, Exists, WrongBoot, Stale};
ghost use Rattle.worked_examples.specs.Demonstration.{attempt, done, first, second, third, farm_one, farm_two, farm_three, farm_four, launched_by, versions_in, after_report, requeued, late_again, text_for, high, high_layer, farm_with_high, offered_by, numbers_in, submit, tick, boot, live_in, states_in};
ghost use Rattle.farm_types.specs.EntryAnswers.{answer_of};
ghost use Rattle.farm_types.specs.Run.{counted};
ghost use Rattle.farm_types.specs.Step.{refusal_of, after};
ghost use Rattle.farm_types.specs.Sums.{used_on, booked_in};
ghost use Rattle.farm_lines.specs.Asked.{heard_entry};

/// The host could run eight frames; the burst of 400 stops the first round at four. A completion lets one more be booked, and the same
/// completion once more lets none.
pub fn burst_stops_at_four()
    ensures first { launched_by farm_one first ≡ 0 ∷ 1 ∷ 2 ∷ 3 ∷ [] }
    ensures second { launched_by farm_two second ≡ 4 ∷ [] }
    ensures third { launched_by farm_three third ≡ [] }
{}

/// A report that comes again is stale, whatever it says is done. One of a host or a boot that isn't there is refused too.
pub fn stale_reports_are_refused()
    ensures again { refusal_of farm_two (heard_entry first 0) ≡ Some (Stale 1) }
    ensures older { refusal_of farm_three (heard_entry (record first { heard = record first.heard { done = done 1 1 0 ∷ [] } }) 0) ≡ Some (Stale 2) }
    ensures unknown { refusal_of farm_one (heard_entry (record first { heard = record first.heard { host = codes "h9" } }) 0) ≡ Some (Unknown (codes "h9")) }
    ensures wrong_boot { refusal_of farm_two (heard_entry (record second { heard = record second.heard { boot = 2 } }) 0) ≡ Some (WrongBoot 1) }
{}

/// What is used and booked follows the attempts: four of 100 hundredths and 3,355,443 KB each.
pub fn sums_follow_attempts()
    ensures used { used_on farm_two 0 ≡ (400, 13421772) }
    ensures booked { booked_in farm_two 0 ≡ 400 }
    ensures as_many { booked_in farm_four 0 ≡ 400 }
{}

/// A completion counts only for the attempt that is live: while a frame's second attempt runs, the first one's completion counts nothing.
pub fn old_completions_count_nothing()
    ensures requeued { versions_in (after_report farm_two requeued) ≡ 2 ∷ 1 ∷ 1 ∷ 1 ∷ 0 ∷ 0 ∷ 0 ∷ 0 ∷ 0 ∷ 0 ∷ [] }
    ensures counted_once { counted farm_two (heard_entry requeued 0 ∷ []) ≡ attempt 0 1 ∷ [] }
    ensures counted_no_more { counted (after_report farm_two requeued) (heard_entry late_again 0 ∷ []) ≡ [] }
{}

/// A submitted job's frames wait in the lowest free slots in range order, and a job of a higher priority is offered first.
pub fn higher_jobs_come_first()
    ensures placed { drop 9 (numbers_in farm_with_high) ≡ Some (pos 10) ∷ Some (pos 3) ∷ Some (pos 2) ∷ Some (pos 1) ∷ [] }
    ensures offered { offered_by farm_with_high first ≡ 10 ∷ 11 ∷ 12 ∷ 0 ∷ 1 ∷ 2 ∷ 3 ∷ 4 ∷ 5 ∷ 6 ∷ 7 ∷ 8 ∷ 9 ∷ [] }
    ensures launched { launched_by farm_with_high first ≡ 0 ∷ 10 ∷ 11 ∷ 12 ∷ [] }
{}

/// A job is refused by a show, then a facility that isn't there, then by its own name, then by a layer's that stands twice.
pub fn submits_are_refused_in_order()
    ensures show { refusal_of farm_with_high (submit (record high { show = codes "zz"; facility = codes "zz" })) ≡ Some (Unknown (codes "zz")) }
    ensures facility { refusal_of farm_with_high (submit (record high { facility = codes "far" })) ≡ Some (Unknown (codes "far")) }
    ensures job { refusal_of farm_with_high (submit (record high { layers = high_layer ∷ high_layer ∷ [] })) ≡ Some (Exists (codes "hi")) }
    ensures layer { refusal_of farm_one (submit (record high { layers = high_layer ∷ high_layer ∷ [] })) ≡ Some (Exists (codes "x")) }
{}

/// What is written for the first and the third of these reports.
pub fn texts_of_the_demonstration()
    ensures first { text_for farm_one first ≡ codes "{\"acks\":[],\"boot\":1,\"cut\":\"\",\"kills\":[],\"launches\":[{\"command\":\"echo 1\",\"cores\":100,\"frame\":\"0001-render\",\"job\":\"demo-job\",\"layer\":\"render\",\"memory\":3355443,\"slot\":0,\"version\":1},{\"command\":\"echo 2\",\"cores\":100,\"frame\":\"0002-render\",\"job\":\"demo-job\",\"layer\":\"render\",\"memory\":3355443,\"slot\":1,\"version\":1},{\"command\":\"echo 3\",\"cores\":100,\"frame\":\"0003-render\",\"job\":\"demo-job\",\"layer\":\"render\",\"memory\":3355443,\"slot\":2,\"version\":1},{\"command\":\"echo 4\",\"cores\":100,\"frame\":\"0004-render\",\"job\":\"demo-job\",\"layer\":\"render\",\"memory\":3355443,\"slot\":3,\"version\":1}],\"ok\":true,\"seq\":1}" }
    ensures third { text_for farm_three third ≡ codes "{\"acks\":[{\"slot\":0,\"version\":1}],\"boot\":1,\"cut\":\"\",\"kills\":[],\"launches\":[],\"ok\":true,\"seq\":3}" }
{}

/// A host that was heard 300 seconds ago is up; a second later it is down, and its four attempts are lost: their frames wait again at
/// the same version, and a report that still runs them counts for nothing.
pub fn silent_hosts_lose_attempts()
    ensures in_time { answer_of farm_two (tick 300) ≡ answer.Tick 0 0 }
    ensures late { answer_of farm_two (tick 301) ≡ answer.Tick 1 4 }
    ensures lost { take 4 (live_in (after farm_two (tick 301))) ≡ None ∷ None ∷ None ∷ None ∷ [] }
    ensures waiting { take 2 (states_in (after farm_two (tick 301))) ≡ Some Waiting ∷ Some Waiting ∷ [] }
    ensures versions { take 5 (versions_in (after farm_two (tick 301))) ≡ 1 ∷ 1 ∷ 1 ∷ 1 ∷ 0 ∷ [] }
    ensures none_counts { counted farm_two (heard_entry second 301 ∷ []) ≡ [] }
{}

/// A boot with the kept nonce changes nothing but when the host was heard. One with another begins a new life, with the boot's amounts, and
/// the attempts of the old one are lost.
pub fn new_lives_lose_attempts()
    ensures same { answer_of farm_two (boot 1 0) ≡ answer.Boot 1 1 }
    ensures kept { used_on (after farm_two (boot 1 0)) 0 ≡ (400, 13421772) }
    ensures new { answer_of farm_two (boot 2 0) ≡ answer.Boot 2 2 }
    ensures lost { used_on (after farm_two (boot 2 0)) 0 ≡ (0, 0) }
    ensures wrong_boot { refusal_of (after farm_two (boot 2 0)) (heard_entry second 0) ≡ Some (WrongBoot 2) }
{}
