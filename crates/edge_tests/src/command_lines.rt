//! Command lines: the machine's, and given ones.
use command_line::words_of;
use farm_types::{Items, Text};
use std::alloc::{AllocError, Global};
use std::env::{Env, FillError};
use std::test::Fail;

/// A command line of these arguments, the program's name first.
#[derive(Drop)]
struct Given<'a> {
    args: &'a [&'a [u8]],
}

impl Env for Given<'_> {
    fn arg(&self, i: usize, buf: &mut [u8]) -> Result<usize, FillError> {
        let Some(arg) = self.args.get(i) else {
            return Err(FillError::NotPresent);
        };
        if buf.len() < arg.len() {
            return Err(FillError::TooLong);
        }
        buf[..arg.len()].copy_from_slice(arg);
        Ok(arg.len())
    }

    fn var(&self, _name: &str, _buf: &mut [u8]) -> Result<usize, FillError> {
        Err(FillError::NotPresent)
    }

    fn var_at(&self, _i: usize, _buf: &mut [u8]) -> Result<usize, FillError> {
        Err(FillError::NotPresent)
    }
}

/// The words, each behind a stroke.
fn joined(alloc: Global, words: &Items<Text>) -> Result<String, AllocError> {
    let mut all = String::new(alloc);
    for word in words.as_slice() {
        all.push('/')?;
        all.push_str(word.as_str())?;
    }
    Ok(all)
}

#[test]
fn words_are_the_arguments_behind_the_name(rt: HostRuntime) -> Result<(), Fail> {
    let given = Given {
        args: &[b"cue", b"127.0.0.1", b"7412", b"", b"h\xc3\xa9"],
    };
    let words = words_of(&(given, rt.alloc()))?;
    let words = joined(rt.alloc(), &words)?;
    assert_eq!(rt; words.as_str(), "/127.0.0.1/7412//h\u{e9}");
    Ok(())
}

#[test]
fn a_word_that_is_no_text_leaves_none(rt: HostRuntime) -> Result<(), Fail> {
    let last = Given {
        args: &[b"cuebot", b"script", b"\xff"],
    };
    assert!(rt; words_of(&(last, rt.alloc()))?.is_empty());
    let first = Given {
        args: &[b"cuebot", b"\xc3", b"demo"],
    };
    assert!(rt; words_of(&(first, rt.alloc()))?.is_empty());
    Ok(())
}

#[test]
fn without_arguments_there_are_no_words(rt: HostRuntime) -> Result<(), Fail> {
    let name = Given { args: &[b"rqd"] };
    assert!(rt; words_of(&(name, rt.alloc()))?.is_empty());
    let none = Given { args: &[] };
    assert!(rt; words_of(&(none, rt.alloc()))?.is_empty());
    Ok(())
}
