//! What the text of a step asks.

use farm_types::Slot;

/// The seats that a case has.
#[derive(Clone, Copy, Debug, PartialEq, Eq)]
pub enum Name {
    A,
    B,
}

/// A call of a dispatcher's seat.
#[derive(Clone, Copy, Debug, PartialEq, Eq)]
pub enum Call {
    Look { slot: Slot },
    Burst,
    Limit,
    Room,
    Claim,
    Drop,
    GiveBack,
    Confirm,
}

/// The passes that a case has.
#[derive(Clone, Copy, Debug, PartialEq, Eq)]
pub enum PassName {
    P,
    Q,
}

/// A call of a pass: it catches up with the recorder, another pass comes to have seen what it has, or it says what it has seen.
#[derive(Clone, Copy, Debug, PartialEq, Eq)]
pub enum PassCall {
    CatchUp,
    Meet,
    Seen,
}

/// A step: a line of the protocol, a seat that is split off for a host, a call of a seat, a pass or a call of it, or a look at a word.
#[derive(Clone, Copy, Debug, PartialEq, Eq)]
pub enum Step<'a> {
    Line { line: &'a str },
    Seat { name: Name, host: &'a str },
    Call { name: Name, call: Call },
    Pass { name: PassName },
    PassCall { name: PassName, call: PassCall },
    HostWord { host: &'a str },
    SubWord { show: &'a str, allocation: &'a str },
    LimitWord { limit: &'a str },
    SlotWord { slot: Slot },
}

/// What a text asks, if it is a step.
pub fn step_of(text: &str) -> Option<Step<'_>> {
    if text.starts_with('{') {
        return Some(Step::Line { line: text });
    }
    let (word, rest) = text.split_once(' ')?;
    match word {
        "seat" => seat_of(rest),
        "pass" => pass_of(rest),
        "p" => pass_call(PassName::P, rest),
        "q" => pass_call(PassName::Q, rest),
        "host" => Some(Step::HostWord { host: rest }),
        "sub" => sub_of(rest),
        "limit" => Some(Step::LimitWord { limit: rest }),
        "slot" => slot_word_of(rest),
        _ => named_call(word, rest),
    }
}

// A seat that is split off, as `a for h1`.
fn seat_of(text: &str) -> Option<Step<'_>> {
    let (name, host) = text.split_once(" for ")?;
    let name = name_of(name)?;
    Some(Step::Seat { name, host })
}

// A pass, as `p`.
fn pass_of(text: &str) -> Option<Step<'_>> {
    let name = pass_name_of(text)?;
    Some(Step::Pass { name })
}

fn pass_name_of(text: &str) -> Option<PassName> {
    match text {
        "p" => Some(PassName::P),
        "q" => Some(PassName::Q),
        _ => None,
    }
}

// A call of a pass, as `meet q`, which is the other one.
fn pass_call(name: PassName, text: &str) -> Option<Step<'_>> {
    let call = match text {
        "catch up" => PassCall::CatchUp,
        "seen" => PassCall::Seen,
        _ => meet_of(name, text)?,
    };
    Some(Step::PassCall { name, call })
}

fn meet_of(name: PassName, text: &str) -> Option<PassCall> {
    let other = pass_name_of(text.strip_prefix("meet ")?)?;
    if other == name {
        return None;
    }
    Some(PassCall::Meet)
}

// A subscription's word, as `alpha farm.general`.
fn sub_of(text: &str) -> Option<Step<'_>> {
    let (show, allocation) = text.split_once(' ')?;
    Some(Step::SubWord { show, allocation })
}

// A slot's words, as `0`.
fn slot_word_of(text: &str) -> Option<Step<'_>> {
    let slot = slot_of(text)?;
    Some(Step::SlotWord { slot })
}

// A call of a seat, as `look 0` of the seat `a`.
fn named_call<'a>(name: &str, text: &'a str) -> Option<Step<'a>> {
    let name = name_of(name)?;
    let call = call_of(text)?;
    Some(Step::Call { name, call })
}

fn name_of(text: &str) -> Option<Name> {
    match text {
        "a" => Some(Name::A),
        "b" => Some(Name::B),
        _ => None,
    }
}

fn call_of(text: &str) -> Option<Call> {
    match text {
        "burst" => Some(Call::Burst),
        "limit" => Some(Call::Limit),
        "room" => Some(Call::Room),
        "claim" => Some(Call::Claim),
        "drop" => Some(Call::Drop),
        "give back" => Some(Call::GiveBack),
        "confirm" => Some(Call::Confirm),
        _ => look_of(text),
    }
}

fn look_of(text: &str) -> Option<Call> {
    let slot = slot_of(text.strip_prefix("look ")?)?;
    Some(Call::Look { slot })
}

fn slot_of(text: &str) -> Option<Slot> {
    let slot = text.parse::<u32>().ok()?;
    Some(Slot(slot))
}
