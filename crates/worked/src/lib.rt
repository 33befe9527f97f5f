//! Worked cases of the rules, each performed by calls whose contracts say what comes of it.
#![tactic(auto)]

ghost use Rattle.worked.specs.Numbers.{number_cases, WorkedNumbers};
ghost use Rattle.worked.specs.Sheets.{WorkedSheet, sheet_cases};
ghost use Rattle.std.specs.Prelude.{◌≡◌};

pub mod runs;

use numbers::read_number;
use refusals::Fault;
use sheetfile::load;
use sources::{Entry, Heading};
use three_by_three::FILE;

/// What is read of the worked bytes of numbers.
pub struct NumberCases {
    pub one_group: Result<(u64, usize), Fault>,
    pub two_groups: Result<(u64, usize), Fault>,
    pub six_groups: Result<(u64, usize), Fault>,
    pub padded: Result<(u64, usize), Fault>,
}

/// Reads the worked bytes of numbers.
pub fn number_cases() -> NumberCases
    ensures value { result ≡ number_cases }
    ensures worked { WorkedNumbers }
{
    NumberCases {
        one_group: read_number(&[0x7f], 0),
        two_groups: read_number(&[0x80, 0x01], 0),
        six_groups: read_number(&[0x80, 0x80, 0x80, 0x80, 0x80, 0x02], 0),
        padded: read_number(&[0x80, 0x00], 0),
    }
}

/// What is loaded of the worked bytes of a sheet.
pub struct SheetCases {
    pub whole: Result<Heading, Fault>,
    pub one_carrier_more: Result<Heading, Fault>,
}

/// Loads the worked sheet, and the same with one carrier more.
pub fn sheet_cases() -> SheetCases
    ensures value { result ≡ sheet_cases }
    ensures worked { WorkedSheet }
{
    let mut starts = [0usize; 5];
    let mut entries = [Entry { job: 0, worth: 0 }; 9];
    let whole = load(&FILE, &mut starts, &mut entries);
    let mut more = FILE;
    more[0] = 4;
    let one_carrier_more = load(&more, &mut starts, &mut entries);
    SheetCases {
        whole,
        one_carrier_more,
    }
}
