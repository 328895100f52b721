//! Figures of the service: how fast it takes, closes and refuses, and how much memory it keeps. Each word measures
//! two things in one run, and prints both and their ratio. With no word, or another, it prints the words.
#![tactic(auto)]

mod gauge;
mod measures;
mod uploads;

use crate::measures::{measure_closes, measure_drip, measure_refusal, measure_stream};
use crate::uploads::new_service;
use std::{env, io};

/// What is measured.
#[derive(Clone, Copy)]
enum Word {
    Stream,
    Refuse,
    Commit,
    Drip,
}

fn read_word(text: &str) -> Option<Word> {
    match text {
        "stream" => Some(Word::Stream),
        "refuse" => Some(Word::Refuse),
        "commit" => Some(Word::Commit),
        "drip" => Some(Word::Drip),
        _ => None,
    }
}

/// The first word of the command line, if it is one.
fn first_word(rt: &HostRuntime) -> io::Result<Option<Word>> {
    let word = env::args(rt)?.nth(1);
    Ok(word.and_then(|word| read_word(word.as_str())))
}

/// Measures what the word names, on a new service.
fn measure(rt: &HostRuntime, word: Word) -> io::Result<()> {
    let mut service = new_service(rt.alloc());
    match word {
        Word::Stream => measure_stream(rt, &mut service),
        Word::Refuse => measure_refusal(rt, &mut service),
        Word::Commit => measure_closes(rt, &mut service),
        Word::Drip => measure_drip(rt, &mut service),
    }
}

fn main(rt: HostRuntime) -> io::Result<()> {
    match first_word(&rt)? {
        Some(word) => measure(&rt, word),
        None => println!(rt; "words: stream, refuse, commit, drip"),
    }
}
