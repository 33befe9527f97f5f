//! A log: layers and calls, a line each.
ghost use Rattle.std.specs.Prelude.{◌≡◌, Some};
ghost use Rattle.replaying.specs.Logs.{Notes, ReadsLog, asked_in, held_in, layer_more, noted_by};
ghost use Rattle.replaying.specs.Outcomes.{trouble_text};
ghost use Rattle.texts.specs.declared.Failure.TheVariants.{Refused};

use crate::line::{Layer, Said, said_in};
use auction::Call;
use refusals::{Fault, Refusal};
use std::alloc::Global;
use std::error::Error;
use std::fmt;
use texts::Failure;

/// The most bytes of a log.
pub const MOST_LOG_BYTES: usize = 65536;

/// Why nothing is replayed.
#[derive(Clone, Copy, PartialEq, Eq, Debug)]
pub enum Trouble {
    /// The calls are refused as a whole.
    Calls(Refusal),
    /// The line of this number, from 1, is not understood, or cannot stand where it stands.
    Line(usize),
    /// The sheet file is refused.
    Sheet(Fault),
}

// As `line 3 is not understood`.
impl fmt::Display for Trouble {
    ghost output = { λ x. Some (trouble_text x) };

    fn fmt<W: fmt::Write>(&self, f: &mut fmt::Formatter<W>) -> fmt::Result {
        match *self {
            Trouble::Calls(refusal) => write!(f, "calls refused {refusal}"),
            Trouble::Line(number) => write!(f, "line {number} is not understood"),
            Trouble::Sheet(fault) => write!(f, "refused {fault}"),
        }
    }
}

impl Error for Trouble {}

// What `?` makes of a trouble.
impl From<Trouble> for Failure<Trouble> {
    ghost from_gives = { λ t e. e ≡ Refused t };

    fn from(trouble: Trouble) -> Failure<Trouble> {
        Failure::Refused(trouble)
    }
}

// The layers of a log, at most two: the one nearest the sheet, and the one over it.
#[derive(Clone, Copy, Default)]
pub(crate) struct Layers {
    pub(crate) nearest: Option<Layer>,
    pub(crate) second: Option<Layer>,
}

impl Layers {
    // With one layer more over the others, if there is a place for it.
    fn with(self, layer: Layer) -> Option<Layers>
        ensures { result ≡ layer_more layer self }
    {
        let Layers { nearest, second } = self;
        match (nearest, second) {
            (None, _) => Some(Layers {
                nearest: Some(layer),
                second,
            }),
            (Some(_), None) => Some(Layers {
                nearest,
                second: Some(layer),
            }),
            (Some(_), Some(_)) => None,
        }
    }
}

// The layers, which stand before every call, and the calls.
#[derive(Drop)]
pub(crate) struct Log {
    pub(crate) layers: Layers,
    pub(crate) calls: Vec<Call>,
}

impl Log {
    // Takes in the line of this number.
    fn note(&mut self, number: usize, line: &[u8]) -> Result<(), Failure<Trouble>>
        ensures { Notes number (noted_by line.now (held_in self.old)) (held_in self.new) result }
    {
        let unread = Trouble::Line(number);
        match said_in(line).ok_or(unread)? {
            Said::Skip => {}
            Said::Put(_) if !self.calls.is_empty() => return Err(unread.into()),
            Said::Put(layer) => self.layers = self.layers.with(layer).ok_or(unread)?,
            Said::Make(call) => self.calls.push(call)?,
        }
        Ok(())
    }
}

// Reads a log to its end, or to its first bad line. One of more than 65,536 bytes is refused before any is read.
pub(crate) fn read_log(heap: Global, text: &[u8]) -> Result<Log, Failure<Trouble>>
    ensures { ReadsLog (asked_in text.now) result }
{
    if text.len() > MOST_LOG_BYTES {
        return Err(Trouble::Calls(Refusal::TooShort).into());
    }
    let mut log = Log {
        layers: Layers::default(),
        calls: Vec::new(heap),
    };
    for (i, line) in text.split(|b| *b == b'\n').enumerate() {
        log.note(i + 1, line)?;
    }
    Ok(log)
}
