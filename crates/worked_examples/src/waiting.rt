//! Worked examples of depends, over the farm of the demonstration with a job more. The public functions here do nothing.

ghost use Rattle.std.specs.Prelude.{◌≡◌, ◌∷◌, [], codes, drop, Ok, Some};
ghost use Rattle.farm_types.specs.declared.answer.Answer.TheVariants as answer;
ghost use Rattle.farm_types.specs.declared.refusal.Refusal.TheVariants.{Satisfied, SelfDepend, Unknown};
ghost use Rattle.farm_types.specs.declared.states.FrameState.TheVariants.{Depend, Waiting};
ghost use Rattle.farm_types.specs.EntryAnswers.{answer_of};
ghost use Rattle.farm_types.specs.Step.{refusal_of};
ghost use Rattle.farm_lines.specs.declared.request.Request.TheVariants as request;
ghost use Rattle.farm_lines.specs.Request.{request_at};
ghost use Rattle.worked_examples.specs.Demonstration.{farm_with_high, first, offered_by, states_in, versions_in};
ghost use Rattle.worked_examples.specs.Waiting.{adding, depend_line, dropping, farm_freed, farm_waiting, high_on_demo, job_on_job, text_of};

/// A job that waits for another: its three frames are blocked, each at one version more of its slot, and none is offered. Once the depend is
/// dropped, they wait to be booked.
pub fn jobs_wait_for_jobs()
    ensures asked { request_at depend_line ≡ Ok (request.Depend high_on_demo) }
    ensures added { answer_of farm_with_high (adding high_on_demo) ≡ answer.DependAdded 1 3 }
    ensures told { text_of farm_with_high (adding high_on_demo) ≡ codes "{\"depend\":1,\"ok\":true,\"unmet\":3}" }
    ensures blocked { drop 9 (states_in farm_waiting) ≡ Some Waiting ∷ Some Depend ∷ Some Depend ∷ Some Depend ∷ [] }
    ensures versions { drop 9 (versions_in farm_waiting) ≡ 0 ∷ 1 ∷ 1 ∷ 1 ∷ [] }
    ensures offered { offered_by farm_waiting first ≡ 0 ∷ 1 ∷ 2 ∷ 3 ∷ 4 ∷ 5 ∷ 6 ∷ 7 ∷ 8 ∷ 9 ∷ [] }
    ensures dropped { answer_of farm_waiting (dropping 1) ≡ answer.DependDropped 3 }
    ensures freed { drop 9 (states_in farm_freed) ≡ Some Waiting ∷ Some Waiting ∷ Some Waiting ∷ Some Waiting ∷ [] }
{}

/// A depend is refused where it names a job that isn't there, where a frame would wait for itself, and once it is satisfied or unknown where it
/// is to be dropped.
pub fn depends_are_refused()
    ensures unknown { refusal_of farm_with_high (adding (job_on_job (codes "hi") (codes "far"))) ≡ Some (Unknown (codes "far")) }
    ensures itself { refusal_of farm_with_high (adding (job_on_job (codes "hi") (codes "hi"))) ≡ Some (SelfDepend (codes "0003-x")) }
    ensures satisfied { refusal_of farm_freed (dropping 1) ≡ Some Satisfied }
    ensures no_depend { refusal_of farm_waiting (dropping 2) ≡ Some (Unknown (codes "2")) }
{}
