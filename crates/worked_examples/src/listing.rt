//! Worked examples of lists, over the farm of the demonstration. The public functions here do nothing.

ghost use Rattle.std.specs.Prelude.{◌≡◌, ◌∷◌, [], codes, Err, Ok};
ghost use Rattle.farm_types.specs.declared.refusal.Refusal.TheVariants.{Finished, Unknown};
ghost use Rattle.farm_lines.specs.declared.query.Listed.TheVariants as listed;
ghost use Rattle.farm_lines.specs.declared.request.Request.TheVariants as request;
ghost use Rattle.farm_lines.specs.Lists.{page_listed, rows_listed};
ghost use Rattle.farm_lines.specs.Request.{BadLine, request_at};
ghost use Rattle.worked_examples.specs.Demonstration.{farm_two, farm_four};
ghost use Rattle.worked_examples.specs.Finishing.{farm_opened};
ghost use Rattle.worked_examples.specs.Listing.{blocked_frame, demo_host, demo_job, demo_layer, demo_proc, demo_sub, first_depend, first_row, frames_line, killed_job, procs_line, text_of_list};
ghost use Rattle.worked_examples.specs.Waiting.{farm_waiting};

/// After the first report four frames run, and after the third, which told the first frame's end once more, one is done and four run.
pub fn jobs_show_their_counts()
    ensures first { rows_listed farm_two listed.Jobs ≡ Ok (demo_job 4 0 6 ∷ []) }
    ensures third { rows_listed farm_four listed.Jobs ≡ Ok (demo_job 4 1 5 ∷ []) }
    ensures layers { rows_listed farm_four (listed.Layers (codes "demo-job")) ≡ Ok (demo_layer 4 1 5 ∷ []) }
    ensures finished { first_row farm_opened listed.Jobs ≡ killed_job ∷ [] }
{}

/// What is booked of a subscription, and the attempts that book it.
pub fn attempts_are_listed()
    ensures hosts { rows_listed farm_two listed.Hosts ≡ Ok (demo_host 400 13421772 ∷ []) }
    ensures subs { rows_listed farm_two listed.Subs ≡ Ok (demo_sub 400 ∷ []) }
    ensures procs { rows_listed farm_two listed.Procs ≡ Ok (demo_proc (codes "0001-render") 0 ∷ demo_proc (codes "0002-render") 1 ∷ demo_proc (codes "0003-render") 2 ∷ demo_proc (codes "0004-render") 3 ∷ []) }
{}

/// The frames of a job that waits for another, in range order, and its depend.
pub fn waiting_jobs_are_listed()
    ensures frames { rows_listed farm_waiting (listed.Frames (codes "hi")) ≡ Ok (blocked_frame (codes "0003-x") ∷ blocked_frame (codes "0002-x") ∷ blocked_frame (codes "0001-x") ∷ []) }
    ensures depends { rows_listed farm_waiting (listed.Depends (codes "hi")) ≡ Ok (first_depend ∷ []) }
    ensures others { rows_listed farm_waiting (listed.Depends (codes "demo-job")) ≡ Ok [] }
{}

/// A page begins at its place, and the whole list is counted also where the place is past its end.
pub fn pages_begin_at_their_place()
    ensures second { page_listed farm_waiting (record { what = listed.Frames (codes "hi"); from = 2 }) ≡ Ok (record { rows = blocked_frame (codes "0001-x") ∷ []; total = 3 }) }
    ensures past { page_listed farm_waiting (record { what = listed.Frames (codes "hi"); from = 7 }) ≡ Ok (record { rows = []; total = 3 }) }
{}

/// The layers, frames and depends of a finished job are refused as such, and those of a job that isn't there as unknown.
pub fn lists_are_refused()
    ensures finished { rows_listed farm_opened (listed.Layers (codes "demo-job")) ≡ Err (Finished (codes "demo-job")) }
    ensures unknown { rows_listed farm_two (listed.Frames (codes "zz")) ≡ Err (Unknown (codes "zz")) }
{}

/// A list of a job names it; another list may not.
pub fn lists_are_read()
    ensures frames { request_at frames_line ≡ Ok (request.List (record { what = listed.Frames (codes "hi"); from = 2 })) }
    ensures procs { request_at procs_line ≡ Err (BadLine (codes "job")) }
{}

/// What is written for a list of shows.
pub fn texts_of_lists()
    ensures { text_of_list farm_two listed.Shows ≡ codes "{\"ok\":true,\"rows\":[{\"name\":\"demo\"}],\"total\":1}" }
{}
