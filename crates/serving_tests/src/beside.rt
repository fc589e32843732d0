//! Two dispatchers beside each other. The words, the subscription and the hosts are those of a small studio.
use crate::caller::Caller;
use crate::held::Held;
use crate::served::{TWO, serve};
use command_line::Status;
use listener::NetListener;
use serving::shared_sessions::shared_rounds::Point;
use std::test::Fail;
use std::{io, thread};

// A studio with two hosts, and cores for two frames.
const STUDIO: [(&str, &str); 5] = [
    (r#"{"op":"show","name":"alpha"}"#, r#"{"ok":true}"#),
    (r#"{"op":"alloc","name":"farm.general"}"#, r#"{"ok":true}"#),
    (
        r#"{"op":"sub","show":"alpha","alloc":"farm.general","size":1000,"burst":200}"#,
        r#"{"booked":0,"burst":200,"ok":true,"size":1000}"#,
    ),
    (
        r#"{"op":"boot","host":"h1","nonce":1,"alloc":"farm.general","tags":[],"cores":800,"memory":67108864}"#,
        r#"{"boot":1,"nonce":1,"ok":true}"#,
    ),
    (
        r#"{"op":"boot","host":"h2","nonce":1,"alloc":"farm.general","tags":[],"cores":800,"memory":67108864}"#,
        r#"{"boot":1,"nonce":1,"ok":true}"#,
    ),
];

// The first host begins anew, with fewer cores.
const SMALLER: &str =
    r#"{"op":"boot","host":"h1","nonce":2,"alloc":"farm.general","tags":[],"cores":400,"memory":67108864}"#;

const TAKEN: &str = r#"{"boot":2,"nonce":2,"ok":true}"#;

// A first report of a host, and its reply where nothing was booked.
const REPORT_1: &str = r#"{"op":"report","host":"h1","boot":1,"seq":1,"running":[],"done":[]}"#;

const REPORT_2: &str = r#"{"op":"report","host":"h2","boot":1,"seq":1,"running":[],"done":[]}"#;

const NOTHING: &str = r#"{"acks":[],"boot":1,"cut":"","kills":[],"launches":[],"ok":true,"seq":1}"#;

// The replies of which the first, or the second, frame of the job was booked.
const FIRST: &str = concat!(
    r#"{"acks":[],"boot":1,"cut":"","kills":[],"launches":["#,
    r#"{"command":"true","cores":100,"frame":"0001-l","job":"j","layer":"l","memory":3355443,"slot":0,"version":1}"#,
    r#"],"ok":true,"seq":1}"#
);

const SECOND: &str = concat!(
    r#"{"acks":[],"boot":1,"cut":"","kills":[],"launches":["#,
    r#"{"command":"true","cores":100,"frame":"0002-l","job":"j","layer":"l","memory":3355443,"slot":1,"version":1}"#,
    r#"],"ok":true,"seq":1}"#
);

// A job of one frame, and of two.
const ONE_FRAME: &str =
    r#"{"op":"submit","job":{"name":"j","show":"alpha","facility":"farm","layers":[{"name":"l","range":"1","command":"true"}]}}"#;

const TWO_FRAMES: &str =
    r#"{"op":"submit","job":{"name":"j","show":"alpha","facility":"farm","layers":[{"name":"l","range":"1-2","command":"true"}]}}"#;

// One frame waits, and the dispatcher of h1 has looked at it, when that of h2 books it. What h1's had taken it gives back: the subscription has one frame
// booked, h1 may change its size, and another frame is booked on it.
fn one_books(rt: &HostRuntime, port: u16, held: &Held) -> io::Result<bool> {
    let mut h1 = Caller::call(rt, port)?;
    let mut h2 = Caller::call(rt, port)?;
    Ok(
        h1.asks_each(&STUDIO)
            && h1.asks(ONE_FRAME, r#"{"frames":1,"job":"j","ok":true}"#)
            && h1.sends(REPORT_1)
            && held.has_come(rt)
            && h2.asks(REPORT_2, FIRST)
            && held.lets_go()
            && h1.hears(NOTHING)
            && h1.asks_each(&[
                (
                    r#"{"op":"list","what":"subs"}"#,
                    r#"{"ok":true,"rows":[{"alloc":"farm.general","booked":100,"burst":200,"show":"alpha","size":1000}],"total":1}"#,
                ),
                (SMALLER, TAKEN),
                (
                    r#"{"op":"submit","job":{"name":"k","show":"alpha","facility":"farm","layers":[{"name":"l","range":"1","command":"true"}]}}"#,
                    r#"{"frames":1,"job":"k","ok":true}"#,
                ),
                (
                    r#"{"op":"report","host":"h1","boot":2,"seq":1,"running":[],"done":[]}"#,
                    concat!(
                        r#"{"acks":[],"boot":2,"cut":"","kills":[],"launches":["#,
                        r#"{"command":"true","cores":100,"frame":"0001-l","job":"k","layer":"l","memory":3355443,"slot":1,"version":1}"#,
                        r#"],"ok":true,"seq":1}"#
                    ),
                ),
            ]),
    )
}

#[test]
fn a_frame_that_two_dispatchers_saw_is_booked_once(rt: HostRuntime) -> Result<(), Fail> {
    let alloc = rt.alloc();
    let held = Held::at(Point::Looked);
    let mut listener = NetListener::bind(&rt, 0)?;
    let port = listener.port()?;
    let gates = held.gates(&rt, alloc)?;
    let (status, went) = thread::join(
        &rt,
        || serve(&rt, alloc, &TWO, &[], &mut listener, gates),
        || one_books(&rt, port, &held),
    );
    assert!(rt; went?);
    assert_eq!(rt; status?, Status::Done);
    Ok(())
}

// The dispatcher of h1 has claimed the frame. Its host is held: a boot with other cores is refused, with what is free there. The frame is eaten, so that the
// claim is withdrawn, and all is given back.
fn one_claims(rt: &HostRuntime, port: u16, held: &Held) -> io::Result<bool> {
    let mut h1 = Caller::call(rt, port)?;
    let mut operator = Caller::call(rt, port)?;
    Ok(
        h1.asks_each(&STUDIO)
            && h1.asks(ONE_FRAME, r#"{"frames":1,"job":"j","ok":true}"#)
            && h1.sends(REPORT_1)
            && held.has_come(rt)
            && operator.asks_each(&[
                (
                    SMALLER,
                    r#"{"code":13,"cores":700,"memory":63753421,"ok":false,"why":"still_held"}"#,
                ),
                (
                    r#"{"op":"eat","job":"j","layer":"l","frame":1}"#,
                    r#"{"ended":0,"ok":true}"#,
                ),
            ])
            && held.lets_go()
            && h1.hears(NOTHING)
            && operator.asks_each(&[
                (
                    r#"{"op":"list","what":"jobs"}"#,
                    concat!(
                        r#"{"ok":true,"rows":[{"dead":0,"depend":0,"eaten":1,"name":"j","paused":false,"priority":100,"running":0,"#,
                        r#""show":"alpha","state":"FINISHED","succeeded":0,"waiting":0}],"total":1}"#
                    ),
                ),
                (SMALLER, TAKEN),
            ]),
    )
}

#[test]
fn a_claim_holds_its_host_and_gives_way_to_an_operator(rt: HostRuntime) -> Result<(), Fail> {
    let alloc = rt.alloc();
    let held = Held::at(Point::Claimed);
    let mut listener = NetListener::bind(&rt, 0)?;
    let port = listener.port()?;
    let gates = held.gates(&rt, alloc)?;
    let (status, went) = thread::join(
        &rt,
        || serve(&rt, alloc, &TWO, &[], &mut listener, gates),
        || one_claims(&rt, port, &held),
    );
    assert!(rt; went?);
    assert_eq!(rt; status?, Status::Done);
    Ok(())
}

// The dispatcher of h1 has claimed the first frame, and is held until that of h2 has booked the second one. A scheduler that took the lock for a whole round
// would come to the end of the gate's turns first.
fn both_book(rt: &HostRuntime, port: u16, held: &Held) -> io::Result<bool> {
    let mut h1 = Caller::call(rt, port)?;
    let mut h2 = Caller::call(rt, port)?;
    Ok(
        h1.asks_each(&STUDIO)
            && h1.asks(TWO_FRAMES, r#"{"frames":2,"job":"j","ok":true}"#)
            && h1.sends(REPORT_1)
            && held.has_come(rt)
            && h2.asks(REPORT_2, SECOND)
            && held.lets_go()
            && h1.hears(FIRST),
    )
}

#[test]
fn a_dispatcher_books_while_another_one_has_claimed(rt: HostRuntime) -> Result<(), Fail> {
    let alloc = rt.alloc();
    let held = Held::at(Point::Claimed);
    let mut listener = NetListener::bind(&rt, 0)?;
    let port = listener.port()?;
    let gates = held.gates(&rt, alloc)?;
    let (status, went) = thread::join(
        &rt,
        || serve(&rt, alloc, &TWO, &[], &mut listener, gates),
        || both_book(&rt, port, &held),
    );
    assert!(rt; went?);
    assert_eq!(rt; status?, Status::Done);
    Ok(())
}
