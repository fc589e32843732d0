//! The model of the farm: its numbers, texts, rows, entries and refusals, and in `specs/` its rules.
#![tactic(auto)]

mod answer;
mod attempt;
mod boot;
mod depend;
mod dispatch;
mod entry;
mod fault;
mod items;
mod job;
mod limits;
mod names;
mod numbers;
mod refusal;
mod rows;
mod single;
mod slot_row;
mod states;
mod sub_line;
mod text;
mod verdict;

pub use answer::Answer;
pub use attempt::{Attempt, DoneItem, Exit, ProcRow};
pub use boot::BootLine;
pub use depend::{
    DependEnd, DependKind, DependRow, DependSpec, Group, LayerShape, MetRow, Place, Shape,
};
pub use dispatch::{Candidate, Cut, Rank};
pub use entry::{Act, Entry, FramePlace, HeardAct};
pub use fault::FarmFault;
pub use items::Items;
pub use job::{JobSpec, LayerSpec};
pub use limits::{
    BOOKINGS_EACH, CANDIDATES_EACH, LAST_BOOT, LAST_DEPEND, LAST_JOB, LAST_SLOT, LAST_VERSION,
    LEAST_CORES, LEAST_MEMORY, MOST_ALLOCS, MOST_BURST, MOST_COMMAND, MOST_CORES, MOST_DEPENDS,
    MOST_EXIT, MOST_FINISHED, MOST_FRAMES, MOST_GROUPS, MOST_HOSTS, MOST_LAYERS, MOST_LIMITS,
    MOST_MEMORY, MOST_NAME, MOST_PRIORITY, MOST_RANGE, MOST_RETRIES, MOST_RUNNING, MOST_SHOWS,
    MOST_TAG, MOST_TAGS, SILENT_SECONDS, SLOT_LIMIT, SUB_NUMBERS,
};
pub use names::{is_name, is_tag};
pub use numbers::{
    AllocNo, Cores, DependNo, HostNo, JobNo, Kb, LimitNo, ShowNo, Slot, SubNo, Version,
};
pub use refusal::{Counted, Refusal};
pub use rows::{AllocRow, HostRow, JobRow, LayerRow, LimitRow, ShowRow, SubRow};
pub use slot_row::{Frame, SlotRow};
pub use states::{FrameState, HostState, JobState, LockState};
pub use sub_line::SubLine;
pub use text::Text;
pub use verdict::Verdict;
