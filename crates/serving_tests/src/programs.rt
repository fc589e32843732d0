//! The scheduler, the daemon and the tool over TCP.
use crate::caller::Caller;
use crate::served::serve;
use child_spawner::{ChildSpawner, SleepRest};
use command_line::Status;
use cue_io::MemorySink;
use cue_tool::DiskFiles;
use dialer::NetDialer;
use farm_types::{Items, Text};
use listener::NetListener;
use serving::shared_sessions::shared_rounds::OpenGate;
use std::alloc::{AllocError, Global};
use std::net::Net;
use std::process::{Processes, SystemProcess};
use std::rt::Runtime;
use std::test::Fail;
use std::thread::Threads;
use std::{io, thread};

// How often the daemon is begun, while it has no connection.
const MOST_STARTS: u32 = 1_000;

// The words of a program, with the port.
fn words_at(alloc: Global, port: u16, words: &[&str]) -> Result<Items<Text>, AllocError> {
    let mut texts = Items::new(alloc);
    texts.push(Text::from_str(alloc, "127.0.0.1")?)?;
    texts.push(Text::from_string(format!(in alloc; "{port}")?))?;
    for word in words {
        texts.push(Text::from_str(alloc, word)?)?;
    }
    Ok(texts)
}

// Runs the tool. Whether it ends well, and prints just this.
fn prints<R: Runtime + AllocGlobal + Net>(
    rt: &R,
    port: u16,
    words: &[&str],
    text: &str,
) -> Result<bool, AllocError> {
    let alloc = rt.alloc();
    let words = words_at(alloc, port, words)?;
    let mut dialer = NetDialer::make(rt.clone()?);
    let mut files = DiskFiles::make(rt.clone()?);
    let mut out = MemorySink::make(alloc, 4096, 4096, &[])?;
    let (status, _connection) = cue_tool::run_program(
        alloc,
        words.as_slice(),
        &mut dialer,
        &mut files,
        &mut out,
    );
    Ok(status == Status::Done && out.written() == text.as_bytes())
}

// Runs the daemon for three rounds, with the pauses of the program.
fn run_daemon<R: Runtime + AllocGlobal + Net + Processes<Started = SystemProcess> + Threads>(
    rt: &R,
    port: u16,
) -> Result<Status, AllocError> {
    let alloc = rt.alloc();
    let words = words_at(
        alloc,
        port,
        &["h1", "farm.general", "8", "67108864", "7", "3"],
    )?;
    let mut dialer = NetDialer::make(rt.clone()?);
    let mut spawner = ChildSpawner::make(alloc, rt.clone()?);
    let mut rest = SleepRest::make(rt.clone()?);
    let (status, _connection) = rqd_session::run_program(
        alloc,
        words.as_slice(),
        &mut dialer,
        &mut spawner,
        &mut rest,
    );
    Ok(status)
}

// The daemon, which is begun again while it has no connection, and then the tool twice. Whether all end well.
fn daemon_and_tool<R: Runtime + AllocGlobal + Net + Processes<Started = SystemProcess> + Threads>(
    rt: &R,
    port: u16,
) -> Result<bool, AllocError> {
    let mut status = Status::NoConnection;
    for _start in 0..MOST_STARTS {
        status = run_daemon(rt, port)?;
        if status != Status::NoConnection {
            break;
        }
    }
    Ok(
        status == Status::Done
            && prints(rt, port, &["show", "alpha"], "{\"ok\":true}\n")?
            && prints(rt, port, &["list", "shows"], "name\nalpha\n")?,
    )
}

#[test]
fn the_three_programs_go_together(rt: HostRuntime) -> Result<(), Fail> {
    let alloc = rt.alloc();
    let mut listener = NetListener::bind(&rt, 0)?;
    let port = listener.port()?;
    let gates = Vec::from_array(alloc, [OpenGate, OpenGate])?;
    let words = ["serve", ":memory:", "7412", "2", "3"];
    let (status, went) = thread::join(
        &rt,
        || serve(&rt, alloc, &words, &[], &mut listener, gates),
        || daemon_and_tool(&rt, port),
    );
    assert!(rt; went?);
    assert_eq!(rt; status?, Status::Done);
    assert_eq!(rt; listener.accepted(), 3);
    Ok(())
}

// The tool adds an allocation, the daemon boots its host there, and the tool lists that. Whether all end well.
fn boots_and_lists<R: Runtime + AllocGlobal + Net + Processes<Started = SystemProcess> + Threads>(
    rt: &R,
    port: u16,
) -> Result<bool, AllocError> {
    Ok(
        prints(rt, port, &["alloc", "farm.general"], "{\"ok\":true}\n")?
            && run_daemon(rt, port)? == Status::Done
            && prints(
                rt,
                port,
                &["list", "hosts"],
                concat!(
                    "alloc         boot  cores  heard  lock  memory    name  state  used_cores  used_memory\n",
                    "farm.general  1     800    0      OPEN  67108864  h1    UP     0           0\n"
                ),
            )?,
    )
}

#[test]
fn the_tool_lists_the_host_that_the_daemon_booted(rt: HostRuntime) -> Result<(), Fail> {
    let alloc = rt.alloc();
    let mut listener = NetListener::bind(&rt, 0)?;
    let port = listener.port()?;
    let gates = Vec::from_array(alloc, [OpenGate, OpenGate])?;
    let words = ["serve", ":memory:", "7412", "2", "3"];
    let (status, went) = thread::join(
        &rt,
        || serve(&rt, alloc, &words, &[], &mut listener, gates),
        || boots_and_lists(&rt, port),
    );
    assert!(rt; went?);
    assert_eq!(rt; status?, Status::Done);
    assert_eq!(rt; listener.accepted(), 3);
    Ok(())
}

// A studio of which six frames run, and whose burst is then lowered below what they use.
const LOWERED: [(&str, &str); 7] = [
    (r#"{"op":"show","name":"alpha"}"#, r#"{"ok":true}"#),
    (r#"{"op":"alloc","name":"farm.general"}"#, r#"{"ok":true}"#),
    (
        r#"{"op":"sub","show":"alpha","alloc":"farm.general","size":1000,"burst":800}"#,
        r#"{"booked":0,"burst":800,"ok":true,"size":1000}"#,
    ),
    (
        r#"{"op":"boot","host":"h1","nonce":7,"alloc":"farm.general","tags":[],"cores":1600,"memory":67108864}"#,
        r#"{"boot":1,"nonce":7,"ok":true}"#,
    ),
    (
        r#"{"op":"submit","job":{"name":"a","show":"alpha","facility":"farm","layers":[{"name":"l","range":"1-6","command":"x"}]}}"#,
        r#"{"frames":6,"job":"a","ok":true}"#,
    ),
    (
        r#"{"op":"report","host":"h1","boot":1,"seq":1,"running":[],"done":[]}"#,
        concat!(
            r#"{"acks":[],"boot":1,"cut":"","kills":[],"launches":["#,
            r#"{"command":"x","cores":100,"frame":"0001-l","job":"a","layer":"l","memory":3355443,"slot":0,"version":1},"#,
            r#"{"command":"x","cores":100,"frame":"0002-l","job":"a","layer":"l","memory":3355443,"slot":1,"version":1},"#,
            r#"{"command":"x","cores":100,"frame":"0003-l","job":"a","layer":"l","memory":3355443,"slot":2,"version":1},"#,
            r#"{"command":"x","cores":100,"frame":"0004-l","job":"a","layer":"l","memory":3355443,"slot":3,"version":1},"#,
            r#"{"command":"x","cores":100,"frame":"0005-l","job":"a","layer":"l","memory":3355443,"slot":4,"version":1},"#,
            r#"{"command":"x","cores":100,"frame":"0006-l","job":"a","layer":"l","memory":3355443,"slot":5,"version":1}"#,
            r#"],"ok":true,"seq":1}"#
        ),
    ),
    (
        r#"{"op":"sub","show":"alpha","alloc":"farm.general","size":1000,"burst":200}"#,
        r#"{"booked":600,"burst":200,"ok":true,"size":1000}"#,
    ),
];

// What the tool prints of it.
fn lists_subs(rt: &HostRuntime, port: u16) -> io::Result<bool> {
    let mut studio = Caller::call(rt, port)?;
    Ok(
        studio.asks_each(&LOWERED)
            && prints(
                rt,
                port,
                &["list", "subs"],
                concat!(
                    "alloc         booked  burst  show   size\n",
                    "farm.general  600     200    alpha  1000\n"
                ),
            )?,
    )
}

#[test]
fn the_tool_lists_what_is_booked(rt: HostRuntime) -> Result<(), Fail> {
    let alloc = rt.alloc();
    let mut listener = NetListener::bind(&rt, 0)?;
    let port = listener.port()?;
    let gates = Vec::from_array(alloc, [OpenGate, OpenGate])?;
    let words = ["serve", ":memory:", "7412", "2", "2"];
    let (status, went) = thread::join(
        &rt,
        || serve(&rt, alloc, &words, &[], &mut listener, gates),
        || lists_subs(&rt, port),
    );
    assert!(rt; went?);
    assert_eq!(rt; status?, Status::Done);
    Ok(())
}
