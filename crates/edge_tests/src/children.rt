//! Child programs are attempts.
use child_spawner::ChildSpawner;
use farm_types::{Attempt, Exit, Slot, Version};
use rqd_launcher::{SpawnFault, Spawner};
use std::alloc::Global;
use std::process::{Command, Processes, Stdio};
use std::rt::Clock;
use std::test::Fail;
use std::thread;
use std::time::Duration;

const FIRST: Attempt = Attempt {
    slot: Slot(0),
    version: Version(1),
};

const OTHER: Attempt = Attempt {
    slot: Slot(1),
    version: Version(1),
};

// A later attempt of the first slot.
const AGAIN: Attempt = Attempt {
    slot: Slot(0),
    version: Version(2),
};

// Ends with 3 where it has nothing to read, and what it writes goes nowhere.
const SILENT: &str =
    "for stream in stdin stdout stderr; do test /dev/$stream -ef /dev/null || exit 4; done; exit 3";

// Ends with 0 once no child of the daemon's has ended that isn't waited for, and with 1 where there is one for ten seconds.
const ALL_WAITED_FOR: &str = "\
for second in 0 1 2 3 4 5 6 7 8 9; do
    left=
    for process in /proc/[0-9]*/stat; do
        read -r _ _ state parent _ <$process || continue
        test \"$state $parent\" = \"Z $PPID\" && left=yes
    done
    test -z \"$left\" && exit 0
    sleep 1
done
exit 1";

// How many polls a child has to end, with a pause of 10 ms after each.
const MOST_POLLS: u32 = 2_000;

// How often a call is tried that the machine refuses, with a pause of 100 ms after each: a busy one may have no place for another process.
const MOST_TRIES: u32 = 200;

// How an attempt ended, once it has.
fn ended<P: Spawner>(
    rt: &impl Clock,
    alloc: Global,
    spawner: &mut P,
    attempt: &Attempt,
) -> Result<Option<Exit>, SpawnFault> {
    for _poll in 0..MOST_POLLS {
        let exit = spawner.poll(alloc, *attempt)?;
        if exit.is_some() {
            return Ok(exit);
        }
        thread::sleep(rt, Duration::from_millis(10));
    }
    Ok(None)
}

// Starts an attempt once the machine does it, and counts how often it was refused.
fn start<P: Spawner, R: Clock + Processes>(
    rt: &R,
    alloc: Global,
    spawner: &mut P,
    refused: &mut u64,
    attempt: Attempt,
    command: &str,
) -> Result<(), Fail> {
    for _try in 0..MOST_TRIES {
        match spawner.start(alloc, attempt, command) {
            Err(SpawnFault::Failed) => count(rt, refused),
            ended => return Ok(ended?),
        }
    }
    start_nothing(rt, alloc)
}

// Stops one, as it is started.
fn stop<P: Spawner, R: Clock + Processes>(
    rt: &R,
    alloc: Global,
    spawner: &mut P,
    refused: &mut u64,
    attempt: Attempt,
) -> Result<(), Fail> {
    for _try in 0..MOST_TRIES {
        match spawner.stop(alloc, attempt) {
            Err(SpawnFault::Failed) => count(rt, refused),
            ended => return Ok(ended?),
        }
    }
    start_nothing(rt, alloc)
}

// Counts a refusal, and lets the machine have its time.
fn count(rt: &impl Clock, refused: &mut u64) {
    *refused = refused.saturating_add(1);
    thread::sleep(rt, Duration::from_millis(100));
}

// Fails by what the machine says of a program that does nothing, and in any case.
fn start_nothing<R: Processes>(rt: &R, alloc: Global) -> Result<(), Fail> {
    Command::new(alloc, "setsid")?
        .arg("true")?
        .stdin(Stdio::null())
        .status(rt)?;
    Err(SpawnFault::Failed)?
}

fn exit(status: u32, signal: u32) -> Option<Exit> {
    Some(Exit { status, signal })
}

#[test]
fn a_command_ends_with_its_status(rt: HostRuntime) -> Result<(), Fail> {
    let alloc = rt.alloc();
    let mut spawner = ChildSpawner::make(alloc, rt);
    let mut refused = 0;
    start(&rt, alloc, &mut spawner, &mut refused, FIRST, SILENT)?;
    start(
        &rt,
        alloc,
        &mut spawner,
        &mut refused,
        OTHER,
        "/no/such/command",
    )?;
    assert_eq!(rt; ended(&rt, alloc, &mut spawner, &FIRST)?, exit(3, 0));
    assert_eq!(rt; ended(&rt, alloc, &mut spawner, &OTHER)?, exit(127, 0));
    assert_eq!(rt; spawner.poll(alloc, FIRST)?, None);
    assert_eq!(rt; spawner.faults(), refused);
    Ok(())
}

#[test]
fn an_older_attempt_of_a_slot_is_another_one(rt: HostRuntime) -> Result<(), Fail> {
    let alloc = rt.alloc();
    let mut spawner = ChildSpawner::make(alloc, rt);
    let mut refused = 0;
    start(&rt, alloc, &mut spawner, &mut refused, FIRST, "sleep 100")?;
    start(&rt, alloc, &mut spawner, &mut refused, AGAIN, "exit 5")?;
    assert_eq!(rt; ended(&rt, alloc, &mut spawner, &AGAIN)?, exit(5, 0));
    assert_eq!(rt; spawner.poll(alloc, FIRST)?, None);
    stop(&rt, alloc, &mut spawner, &mut refused, FIRST)?;
    assert_eq!(rt; ended(&rt, alloc, &mut spawner, &FIRST)?, exit(1, 9));
    assert_eq!(rt; spawner.faults(), refused);
    Ok(())
}

#[test]
fn a_stop_ends_all_that_a_command_started(rt: HostRuntime) -> Result<(), Fail> {
    let alloc = rt.alloc();
    let mut spawner = ChildSpawner::make(alloc, rt);
    let mut refused = 0;
    start(
        &rt,
        alloc,
        &mut spawner,
        &mut refused,
        FIRST,
        "sleep 100 & sleep 100",
    )?;
    assert_eq!(rt; spawner.poll(alloc, FIRST)?, None);
    stop(&rt, alloc, &mut spawner, &mut refused, FIRST)?;
    assert_eq!(rt; ended(&rt, alloc, &mut spawner, &FIRST)?, exit(1, 9));
    stop(&rt, alloc, &mut spawner, &mut refused, FIRST)?;
    stop(&rt, alloc, &mut spawner, &mut refused, OTHER)?;
    start(
        &rt,
        alloc,
        &mut spawner,
        &mut refused,
        AGAIN,
        ALL_WAITED_FOR,
    )?;
    assert_eq!(rt; ended(&rt, alloc, &mut spawner, &AGAIN)?, exit(0, 0));
    assert_eq!(rt; spawner.faults(), refused);
    Ok(())
}

#[test]
fn a_start_that_fails_is_counted(rt: HostRuntime) -> Result<(), Fail> {
    let alloc = rt.alloc();
    let mut spawner = ChildSpawner::make(alloc, rt);
    assert_eq!(rt;
        spawner.start(alloc, FIRST, "exit 3\0"),
        Err(SpawnFault::Failed)
    );
    assert_eq!(rt; spawner.poll(alloc, FIRST)?, None);
    assert_eq!(rt; spawner.faults(), 1);
    Ok(())
}
