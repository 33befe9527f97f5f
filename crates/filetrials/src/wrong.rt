//! Where the files come from, what is checked of each, and what is printed of one that is wrong.
use refusals::Fault;
use std::fmt;

// Where a file comes from.
#[derive(Clone, Copy, Debug)]
pub(crate) enum Origin {
    Sheet(u32),
    Changed { sheet: u32, place: usize, byte: u8 },
    Cut { sheet: u32, end: usize },
    Random(u32),
}

impl fmt::Display for Origin {
    fn fmt<W: fmt::Write>(&self, f: &mut fmt::Formatter<W>) -> fmt::Result {
        match *self {
            Origin::Sheet(sheet) => write!(f, "sheet {sheet}"),
            Origin::Changed { sheet, place, byte } => {
                write!(f, "sheet {sheet} with byte {place} changed to {byte:02x}")
            }
            Origin::Cut { sheet, end } => write!(f, "sheet {sheet} cut at {end}"),
            Origin::Random(number) => write!(f, "random file {number}"),
        }
    }
}

// What is checked of each file.
#[derive(Clone, Copy, Debug)]
pub(crate) enum Check {
    Written,
    RefusedRewrite,
    States,
    StatesTables,
    RefusedLoad,
    Rewrite,
    Owned,
    OwnedSheet,
    Held,
    HeldSheet,
    Short,
    OfLoads,
}

impl Check {
    fn text(self) -> &'static str {
        match self {
            Check::Written => "an accepted file is written again as it was, and nothing behind it",
            Check::RefusedRewrite => "a refused rewrite leaves tables and buffer as they were",
            Check::States => "a load state by state tells what a load of the whole file tells",
            Check::StatesTables => "a load state by state fills the tables as a load of the whole",
            Check::RefusedLoad => "a refused load leaves the tables as they were",
            Check::Rewrite => "a rewrite is accepted or refused as a load is",
            Check::Owned => "tables of one's own answer as lent ones",
            Check::OwnedSheet => "tables of one's own hold the sheet that lent ones hold, or none",
            Check::Held => "tables of one's own that hold a sheet answer as those that hold none",
            Check::HeldSheet => "tables of one's own hold what they loaded last",
            Check::Short => "a buffer one byte too short is refused, and all lent stays as it was",
            Check::OfLoads => "no load is refused for what only a hall refuses",
        }
    }
}

// How a call on a file ended.
pub(crate) type Answer = Result<(), Fault>;

// A check that does not hold. Where the answer is as expected, what the call left or wrote is not.
#[derive(Clone, Copy, Debug)]
pub(crate) struct Wrong {
    pub(crate) check: Check,
    pub(crate) expected: Answer,
    pub(crate) answered: Answer,
}

// An answer as it is printed.
#[derive(Clone, Copy, Debug)]
struct Shown(Answer);

impl fmt::Display for Shown {
    fn fmt<W: fmt::Write>(&self, f: &mut fmt::Formatter<W>) -> fmt::Result {
        match self.0 {
            Ok(()) => write!(f, "accepted"),
            Err(fault) => write!(f, "refused with {fault}"),
        }
    }
}

impl fmt::Display for Wrong {
    fn fmt<W: fmt::Write>(&self, f: &mut fmt::Formatter<W>) -> fmt::Result {
        let check = self.check;
        let text = check.text();
        let expected = Shown(self.expected);
        let answered = Shown(self.answered);
        write!(f, "broken: {text} ({check:?}); ")?;
        if self.expected == self.answered {
            write!(
                f,
                "answered {answered} as expected, but left something else"
            )
        } else {
            write!(f, "expected {expected}, answered {answered}")
        }
    }
}

// A file that is wrong.
#[derive(Drop)]
pub(crate) struct Found {
    pub(crate) origin: Origin,
    pub(crate) wrong: Wrong,
    pub(crate) bytes: Vec<u8>,
}

impl fmt::Display for Found {
    fn fmt<W: fmt::Write>(&self, f: &mut fmt::Formatter<W>) -> fmt::Result {
        let origin = self.origin;
        let wrong = self.wrong;
        write!(f, "{origin}: {wrong}; file ")?;
        for byte in &self.bytes {
            write!(f, "{byte:02x}")?;
        }
        Ok(())
    }
}
