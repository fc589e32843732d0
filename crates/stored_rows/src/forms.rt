//! The forms of rows.

ghost use Rattle.std.specs.Prelude.{◌≡◌, ◌^◌, length, nat_lt};
ghost use Rattle.std.specs.List.{list_all};
ghost use Rattle.farm_types.specs.Forms.{is_between, is_command_byte, is_command_text, is_name_or_empty, is_tag_text};
ghost use Rattle.farm_types.specs.Kept.{are_tags, is_formed_alloc, is_formed_host, is_formed_job, is_formed_limit, is_formed_show};
ghost use Rattle.farm_types.specs.declared.limits.TheConstants.{LAST_BOOT, LEAST_CORES, LEAST_MEMORY};
ghost use Rattle.farm_types.specs.declared.limits.TheConstants.{MOST_COMMAND, MOST_CORES, MOST_FRAMES, MOST_MEMORY, MOST_PRIORITY, MOST_RUNNING};

use farm_types::{
    AllocRow, Cores, HostRow, Items, JobRow, Kb, LAST_BOOT, LEAST_CORES, LEAST_MEMORY, LimitRow,
    MOST_COMMAND, MOST_CORES, MOST_FRAMES, MOST_MEMORY, MOST_PRIORITY, MOST_RETRIES, MOST_RUNNING,
    MOST_TAGS, ShowRow, Text, is_name, is_tag,
};

/// Whether the show has its form.
pub(crate) fn is_formed_show(row: &ShowRow) -> bool
    ensures { result ≡ is_formed_show row.now }
{
    is_name(row.name.as_str())
}

/// Whether the allocation has its form.
pub(crate) fn is_formed_alloc(row: &AllocRow) -> bool
    ensures { result ≡ is_formed_alloc row.now }
{
    is_tag(row.facility.as_str()) && is_tag(row.tag.as_str())
}

/// Whether the limit has its form.
pub(crate) fn is_formed_limit(row: &LimitRow) -> bool
    ensures { result ≡ is_formed_limit row.now }
{
    is_name(row.name.as_str()) && row.most <= MOST_RUNNING
}

/// Whether the host has its form.
pub(crate) fn is_formed_host(row: &HostRow) -> bool
    ensures { result ≡ is_formed_host row.now }
{
    is_name(row.name.as_str())
        && (are_tags(0, &row.tags)
            && (are_cores(row.cores)
                && (are_memory(row.memory)
                    && (is_boot(row.boot) && (is_long(row.nonce) && is_long(row.seq))))))
}

/// Whether the job, of so many shows, has its form.
pub(crate) fn is_formed_job(shows: usize, row: &JobRow) -> bool
    ensures { result ≡ is_formed_job shows row.now }
{
    is_name(row.name.as_str())
        && ((row.show.0 as usize) < shows
            && (is_tag(row.facility.as_str())
                && (is_name_or_empty(row.shot.as_str())
                    && (is_name_or_empty(row.user.as_str())
                        && (is_priority(row.priority)
                            && (row.max_retries <= MOST_RETRIES && is_count(row.frames)))))))
}

/// Whether there are so many tags at least, 32 at most, each of its form.
pub(crate) fn are_tags(least: usize, tags: &Items<Text>) -> bool
    ensures { result ≡ are_tags least tags.now }
{
    least <= tags.len() && tags.len() <= MOST_TAGS as usize && all_are_tags(tags.as_slice())
}

// Whether each text has the form of a tag.
fn all_are_tags(tags: &[Text]) -> bool
    ensures { result ≡ list_all is_tag_text tags.now }
{
    tags.iter().all(|tag| is_tag(tag.as_str()))
}

/// Whether a host or a layer may have so many cores.
pub(crate) fn are_cores(cores: Cores) -> bool
    ensures { result ≡ is_between LEAST_CORES MOST_CORES cores }
{
    LEAST_CORES <= cores.0 && cores.0 <= MOST_CORES
}

/// Whether a host or a layer may have so much memory.
pub(crate) fn are_memory(memory: Kb) -> bool
    ensures { result ≡ is_between LEAST_MEMORY MOST_MEMORY memory }
{
    LEAST_MEMORY <= memory.0 && memory.0 <= MOST_MEMORY
}

// Whether it is a host's boot number.
fn is_boot(boot: u32) -> bool
    ensures { result ≡ is_between 1 LAST_BOOT boot }
{
    1 <= boot && boot <= LAST_BOOT
}

/// That a number of 64 bits is one.
pub(crate) fn is_long(number: u64) -> bool
    ensures { result ≡ nat_lt number (2 ^ 64) }
{
    let _number = number;
    true
}

// Whether it is a priority.
fn is_priority(priority: u32) -> bool
    ensures { result ≡ is_between 1 MOST_PRIORITY priority }
{
    1 <= priority && priority <= MOST_PRIORITY
}

// Whether a job may have so many frames.
fn is_count(frames: u32) -> bool
    ensures { result ≡ is_between 1 MOST_FRAMES frames }
{
    1 <= frames && frames <= MOST_FRAMES
}

// Whether it is empty or a name.
fn is_name_or_empty(text: &str) -> bool
    ensures { result ≡ is_name_or_empty text.now }
{
    text.is_empty() || is_name(text)
}

/// Whether the command isn't too long.
pub(crate) fn is_short_command(command: &str) -> bool
    ensures { result ≡ is_between 1 MOST_COMMAND (length command.now) }
{
    1 <= command.len() && command.len() <= MOST_COMMAND as usize
}

/// Whether no byte of the command is below 32.
pub(crate) fn is_command(text: &str) -> bool
    ensures { result ≡ is_command_text text.now }
{
    are_command_bytes(text.as_bytes())
}

// Whether no byte is below 32.
fn are_command_bytes(bytes: &[u8]) -> bool
    ensures { result ≡ list_all is_command_byte bytes.now }
{
    bytes.iter().all(|b| 32 <= *b)
}
