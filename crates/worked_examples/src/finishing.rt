//! Worked examples of jobs that finish. The public functions here do nothing.

ghost use Rattle.std.specs.Prelude.{◌≡◌, ◌∷◌, [], codes, drop, length, None, Some};
ghost use Rattle.farm_types.specs.declared.refusal.Refusal.TheVariants.{Finished};
ghost use Rattle.farm_types.specs.declared.states.FrameState.TheVariants.{Waiting};
ghost use Rattle.farm_types.specs.Step.{refusal_of};
ghost use Rattle.worked_examples.specs.Demonstration.{states_in, versions_in};
ghost use Rattle.worked_examples.specs.Finishing.{depends_in, eaten_in, farm_done, farm_opened, finishes_in, killing};

/// A job that is killed finishes at once: its slots are free, two versions later where a frame waited, and the job that waited for it opens. Once that is
/// killed too, it has the next finishing number, and the depend in which it waited is gone.
pub fn killed_jobs_finish()
    ensures finished { finishes_in farm_opened ≡ 1 ∷ 0 ∷ [] }
    ensures eaten { eaten_in farm_opened ≡ 10 ∷ 0 ∷ [] }
    ensures layers { length farm_opened.layers ≡ 1 }
    ensures opened { drop 9 (states_in farm_opened) ≡ None ∷ Some Waiting ∷ Some Waiting ∷ Some Waiting ∷ [] }
    ensures versions { drop 9 (versions_in farm_opened) ≡ 2 ∷ 1 ∷ 1 ∷ 1 ∷ [] }
    ensures stays { depends_in farm_opened ≡ 1 ∷ [] }
    ensures both { finishes_in farm_done ≡ 1 ∷ 2 ∷ [] }
    ensures gone { depends_in farm_done ≡ [] }
    ensures refused { refusal_of farm_done (killing (codes "hi")) ≡ Some (Finished (codes "hi")) }
{}
