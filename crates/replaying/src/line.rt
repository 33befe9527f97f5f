//! What a line of a log says.
ghost use Rattle.replaying.specs.Lines.{said_alone, said_by, said_of_one, said_of_two, said_with};
ghost use Rattle.replaying.specs.Numerals.{number_in};
ghost use Rattle.std.specs.Option.{option_map};
ghost use Rattle.std.specs.Prelude.{◌≡◌, is_some};

use auction::Call;
use std::str;

// A layer that is put over the source.
#[derive(Clone, Copy)]
pub(crate) enum Layer {
    Times(u32),
    Floor(u64),
}

// A blank line or a comment says nothing.
#[derive(Clone, Copy)]
pub(crate) enum Said {
    Skip,
    Put(Layer),
    Make(Call),
}

// What a word alone says.
fn alone(word: &[u8]) -> Option<Said>
    ensures { result ≡ said_alone word.now }
{
    match word {
        b"" => Some(Said::Skip),
        b"worth" => Some(Said::Make(Call::TotalWorth)),
        b"counts" => Some(Said::Make(Call::AllCounts)),
        _ => None,
    }
}

// What a word and a number say. A times layer has a factor below 2^32.
fn with_one(word: &[u8], n: u64) -> Option<Said>
    ensures { result ≡ said_of_one word.now n }
{
    match word {
        b"summon" => Some(Said::Make(Call::Summon(n as usize))),
        b"look" => Some(Said::Make(Call::Look(n as usize))),
        b"settle" => Some(Said::Make(Call::Settle(n as usize))),
        b"price" => Some(Said::Make(Call::PriceOf(n as usize))),
        b"holder" => Some(Said::Make(Call::HolderOf(n as usize))),
        b"standing" => Some(Said::Make(Call::StandingOf(n as usize))),
        b"times" => Some(Said::Put(Layer::Times(u32::try_from(n).ok()?))),
        b"floor" => Some(Said::Put(Layer::Floor(n))),
        _ => None,
    }
}

// What a word and two numbers say.
fn with_two(word: &[u8], a: u64, b: u64) -> Option<Said>
    ensures { result ≡ said_of_two word.now a b }
{
    match word {
        b"start" => Some(Said::Make(Call::Start {
            step: a,
            lanes: b as usize,
        })),
        b"run" => Some(Said::Make(Call::Run {
            depth: a as usize,
            budget: b,
        })),
        _ => None,
    }
}

// The decimal number that a word is, if it is one below 2^64.
fn number(word: &[u8]) -> Option<u64>
    ensures { result ≡ number_in word.now }
{
    // The library would read a `+` in front.
    if word.starts_with(b"+") {
        return None;
    }
    str::from_utf8(word).ok()?.parse().ok()
}

// What a word says with the words behind it, as far as there are any.
fn by_words(
    word: &[u8],
    first: Option<&[u8]>,
    second: Option<&[u8]>,
    third: Option<&[u8]>,
) -> Option<Said>
    ensures { let a = option_map (λ w. w.now) first.entry in let b = option_map (λ w. w.now) second.entry in
        result ≡ said_with word.now a b (is_some third.entry) }
{
    match (first, second, third) {
        (None, _, _) => alone(word),
        (Some(a), None, _) => with_one(word, number(a)?),
        (Some(a), Some(b), None) => with_two(word, number(a)?, number(b)?),
        (Some(_), Some(_), Some(_)) => None,
    }
}

// What a line says; `None` if it is not understood.
pub(crate) fn said_in(line: &[u8]) -> Option<Said>
    ensures { result ≡ said_by line.now }
{
    if line.starts_with(b"#") {
        return Some(Said::Skip);
    }
    let mut words = line.split(|b| *b == b' ');
    by_words(words.next()?, words.next(), words.next(), words.next())
}
