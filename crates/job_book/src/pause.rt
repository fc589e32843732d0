//! Jobs are paused and resumed.

ghost use Rattle.std.specs.Prelude.{◌≡◌, map};
ghost use Rattle.farm_types.specs.Operators.{paused_row};

use crate::jobs::Jobs;
use farm_types::JobNo;

impl Jobs {
    /// Pauses the job of that number, or resumes it. Nothing changes where it isn't there.
    pub fn set_paused(&mut self, job: JobNo, paused: bool)
        ensures { self.new ≡ record self.old { jobs = map (paused_row job paused) self.old.jobs } }
    {
        let at = self.entries.at(job);
        self.entries.pause(&at, paused);
    }
}
