//! The numbers of sessions and of files that an entry names.
ghost use Rattle.std.specs.Prelude.{◌≡◌, map};
ghost use Rattle.upload_journal.specs.declared.body.BodyFile.{BodyFile as File};
ghost use Rattle.upload_store.specs.Found.{ask_numbers, body_numbers, entry_numbers};
ghost use Rattle.upload_store.specs.Salvage.{number_told, number_asked, highest, before, past};

use upload_journal::{BodyFile, Entry, KeptAnswer, KeptAsk, KeptBody};

/// The number of the session that an answer says was begun, or 0.
fn number_told(told: &KeptAnswer) -> u32
    ensures { result ≡ number_told told.now }
{
    match told {
        KeptAnswer::Begun(at) => at.number(),
        _ => 0,
    }
}

/// The number of the session that a request goes to, or 0.
fn number_asked(ask: &KeptAsk) -> u32
    ensures { result ≡ number_asked ask.now }
{
    match ask {
        KeptAsk::Chunk { at, .. } => at.number(),
        KeptAsk::Close { at, .. } => at.number(),
        _ => 0,
    }
}

/// The highest number that an entry names, or 0.
pub fn highest(entry: &Entry) -> u32
    ensures { result ≡ highest entry.now }
{
    match entry {
        Entry::Exchange(exchange) => {
            number_asked(&exchange.ask).max(number_told(&exchange.answer))
        }
        Entry::NumbersUpTo(number) => *number,
        Entry::MomentsUpTo(_) => 0,
    }
}

/// The number before that of the session that an entry begins, or 0.
pub fn before(entry: &Entry) -> u32
    ensures { result ≡ before entry.now }
{
    match entry {
        Entry::Exchange(exchange) => number_told(&exchange.answer).saturating_sub(1),
        _ => 0,
    }
}

/// The first number above those of files, or 0.
fn past_in(files: &[BodyFile]) -> u64
    ensures { result ≡ past (map (λ (file : File). file.number) files.now) }
{
    let mut high = 0;
    for file in files {
        high = file.number.saturating_add(1).max(high);
    }
    high
}

/// The first number above those of the files that a body is in, or 0.
fn past_body(body: &KeptBody) -> u64
    ensures { result ≡ past (body_numbers body.now) }
{
    match body {
        KeptBody::Here(_) => 0,
        KeptBody::InFiles(files) => past_in(files.as_slice()),
    }
}

fn past_ask(ask: &KeptAsk) -> u64
    ensures { result ≡ past (ask_numbers ask.now) }
{
    match ask {
        KeptAsk::Single { body, .. } => past_body(body),
        KeptAsk::Chunk { body, .. } => past_body(body),
        KeptAsk::Close { body, .. } => past_body(body),
        _ => 0,
    }
}

/// The first number above those of the files that an entry names, or 0. Above 2^64 - 2 it is 2^64 - 1.
pub fn past_files(entry: &Entry) -> u64
    ensures { result ≡ past (entry_numbers entry.now) }
{
    match entry {
        Entry::Exchange(exchange) => past_ask(&exchange.ask),
        _ => 0,
    }
}
