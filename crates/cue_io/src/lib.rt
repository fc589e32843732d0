//! Input by lines, output, and clocks: what the programs use of their surroundings.
#![tactic(auto)]

mod clock;
mod history;
mod input_source;
mod limits;
mod line;
mod line_reader;
mod memory_clock;
mod memory_sink;
mod memory_source;
mod output;
mod output_sink;
mod sink;
mod source;
mod system_clock;
mod window;

pub use clock::Clock;
pub use history::lines_follow_bytes;
pub use input_source::InputSource;
pub use limits::BYTE_LIMIT;
pub use line::{Line, LineFault};
pub use line_reader::LineReader;
pub use memory_clock::MemoryClock;
pub use memory_sink::MemorySink;
pub use memory_source::MemorySource;
pub use output::write_all;
pub use output_sink::OutputSink;
pub use sink::{Sink, SinkFault};
pub use source::{Source, SourceFault};
pub use system_clock::SystemClock;
