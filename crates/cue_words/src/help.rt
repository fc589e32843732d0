//! The help text.

ghost use Rattle.std.specs.Prelude.{◌≡◌};
ghost use Rattle.cue_words.specs.Help.{help_lines};

/// A line for each command, with its newline.
#[tactic(auto, unfolding(crate::specs::Help::help_lines))]
pub fn help_text() -> &'static str
    ensures { result.now ≡ help_lines }
{
    "list WHAT [JOB]\n\
     show NAME\n\
     alloc NAME\n\
     sub SHOW ALLOC SIZE BURST\n\
     limit NAME MOST\n\
     lock HOST\n\
     unlock HOST\n\
     nimby HOST\n\
     submit FILE\n\
     depend KIND all|any WAITER on TARGET\n\
     drop N\n\
     pause JOB\n\
     resume JOB\n\
     kill JOB [LAYER FRAME]\n\
     eat JOB LAYER FRAME\n\
     retry JOB LAYER FRAME\n\
     tick\n\
     help\n"
}
