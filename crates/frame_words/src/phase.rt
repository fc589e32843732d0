//! The phases of a frame word: the states of frames, a slot without a frame, and a frame that a dispatcher has claimed.

/// The slot has no frame.
pub const FREE: u8 = 0;

/// The frame waits.
pub const WAITING: u8 = 1;

/// The frame is held back by a depend.
pub const DEPEND: u8 = 2;

/// A dispatcher has claimed the frame, and its booking isn't recorded yet.
pub const SETUP: u8 = 3;

/// The frame runs.
pub const RUNNING: u8 = 4;

/// The frame succeeded.
pub const SUCCEEDED: u8 = 5;

/// The frame has failed for good.
pub const DEAD: u8 = 6;

/// The frame was given up.
pub const EATEN: u8 = 7;
