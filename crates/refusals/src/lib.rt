//! Why a call is refused: 22 cases with their numbers and reasons; a fault is a refusal with the byte place where it has one.
#![tactic(auto)]

ghost use Rattle.std.specs.Prelude.{◌≡◌, Some};
ghost use Rattle.refusals.specs.Numbering.{number_of, Named, NamedOrNot, Numbered, unknown_text};
ghost use Rattle.refusals.specs.Reasons.{reason_of, refusal_text};
ghost use Rattle.refusals.specs.Faults.{fault_at, fault_of, fault_text};

use std::error::Error;
use std::fmt;

/// Why a call is refused. The list is closed, and a refused call alters nothing.
#[derive(Clone, Copy, Debug, PartialEq, Eq)]
pub enum Refusal {
    /// No byte is left where a number should begin, or its bytes end before a group that ends it, and before the sixth.
    NumberCut = 1,
    /// A number does not end with its sixth group.
    NumberTooLong = 2,
    /// A number has more than one group, and its last one is zero.
    NumberPadded = 3,
    /// There are no carriers or more than 128, no jobs or more than 256, or the ceiling exceeds 2^36.
    CountsOutside = 4,
    /// An entry's job is not known, or does not exceed that of the entry before it in the row.
    JobOutOfOrder = 5,
    /// An entry is worth 0, or more than the ceiling.
    WorthOutside = 6,
    /// Another row is to be read, and all that were announced have been.
    NoRowLeft = 7,
    /// A file is to be closed before all announced rows have been read.
    RowsMissing = 8,
    /// The total at the end differs from the number of entries that were read.
    TotalDiffers = 9,
    /// A file has bytes behind its total.
    BytesFollow = 10,
    /// There are not carriers + 1 row starts, the first is not 0, one is below the one before it, or one is above the number of entries.
    StartsUnfit = 11,
    /// What has to be written does not fit into a table, a ring or a buffer, or what is given exceeds a limit.
    TooShort = 12,
    /// No start of the hall was accepted so far.
    NeverStarted = 13,
    /// The step is 0 or above 2^36.
    StepOutside = 14,
    /// The lanes are 0 or above 32.
    LanesOutside = 15,
    /// The carrier number is not below the number of carriers.
    NoSuchCarrier = 16,
    /// The job number is not below the number of jobs.
    NoSuchJob = 17,
    /// The carrier to be summoned bids, is served or is out.
    NotWaiting = 18,
    /// The carrier that is to look or to settle is not bidding.
    NoOpenBid = 19,
    /// A look finds nothing left of the carrier's row.
    RowLookedAt = 20,
    /// A settle finds entries that the bid has not looked at.
    RowNotLookedAt = 21,
    /// The depth is 0 or above 128.
    DepthOutside = 22,
}

impl Refusal {
    /// The refusal's number. The numbers are 1 to 22, one a refusal.
    pub fn number(self) -> u8
        ensures value { result ≡ number_of self }
        ensures numbering { Numbered }
    {
        u8::from(self)
    }

    /// The refusal that has a number, if one has it.
    pub fn from_number(n: u8) -> Option<Refusal>
        ensures { Named n result }
    {
        Refusal::try_from(n).ok()
    }

    /// What the refusal says, in words.
    pub fn reason(self) -> &'static str
        ensures { result.now ≡ reason_of self }
    {
        match self {
            Refusal::NumberCut => "the bytes end before a number, or inside one",
            Refusal::NumberTooLong => "a number goes on after its sixth byte",
            Refusal::NumberPadded => "a number is not in its shortest form: its last byte is zero",
            Refusal::CountsOutside =>
                "carriers must be 1 to 128, jobs 1 to 256 and the ceiling at most 68719476736",
            Refusal::JobOutOfOrder =>
                "a job is not below the number of jobs, or not above the job before it in its row",
            Refusal::WorthOutside => "a worth is 0 or above the ceiling",
            Refusal::NoRowLeft => "every announced row was read already",
            Refusal::RowsMissing => "announced rows are missing",
            Refusal::TotalDiffers => "the closing total is not the number of entries read",
            Refusal::BytesFollow => "bytes follow the closing total",
            Refusal::StartsUnfit =>
                "the row starts do not fit: carriers + 1 of them, from 0, never falling, none past the last entry",
            Refusal::TooShort =>
                "a table, ring, limit or buffer is too short for what has to be written",
            Refusal::NeverStarted => "the hall was never started",
            Refusal::StepOutside => "the step must be 1 to 68719476736",
            Refusal::LanesOutside => "the lanes must be 1 to 32",
            Refusal::NoSuchCarrier => "the carrier number is too large",
            Refusal::NoSuchJob => "the job number is too large",
            Refusal::NotWaiting => "the carrier to be summoned is not waiting",
            Refusal::NoOpenBid => "the carrier has no open bid",
            Refusal::RowLookedAt => "the carrier's row is fully looked at",
            Refusal::RowNotLookedAt => "the carrier's row has entries that were not looked at",
            Refusal::DepthOutside => "the depth must be 1 to 128",
        }
    }
}

// The refusal's number.
impl From<Refusal> for u8 {
    ghost from_gives = { λ a n. n ≡ number_of a };

    fn from(refusal: Refusal) -> u8 {
        refusal as u8
    }
}

/// A number that no refusal has.
#[derive(Clone, Copy, PartialEq, Eq, Debug)]
pub struct UnknownNumber {
    pub number: u8,
}

impl fmt::Display for UnknownNumber {
    ghost output = { λ x. Some (unknown_text x) };

    fn fmt<W: fmt::Write>(&self, f: &mut fmt::Formatter<W>) -> fmt::Result {
        let number = self.number;
        write!(f, "no refusal has the number {number}")
    }
}

impl Error for UnknownNumber {}

// The refusal that has a number.
impl TryFrom<u8> for Refusal {
    type Error = UnknownNumber;

    ghost try_from_gives = { NamedOrNot };

    fn try_from(number: u8) -> Result<Refusal, UnknownNumber> {
        match number {
            1 => Ok(Refusal::NumberCut),
            2 => Ok(Refusal::NumberTooLong),
            3 => Ok(Refusal::NumberPadded),
            4 => Ok(Refusal::CountsOutside),
            5 => Ok(Refusal::JobOutOfOrder),
            6 => Ok(Refusal::WorthOutside),
            7 => Ok(Refusal::NoRowLeft),
            8 => Ok(Refusal::RowsMissing),
            9 => Ok(Refusal::TotalDiffers),
            10 => Ok(Refusal::BytesFollow),
            11 => Ok(Refusal::StartsUnfit),
            12 => Ok(Refusal::TooShort),
            13 => Ok(Refusal::NeverStarted),
            14 => Ok(Refusal::StepOutside),
            15 => Ok(Refusal::LanesOutside),
            16 => Ok(Refusal::NoSuchCarrier),
            17 => Ok(Refusal::NoSuchJob),
            18 => Ok(Refusal::NotWaiting),
            19 => Ok(Refusal::NoOpenBid),
            20 => Ok(Refusal::RowLookedAt),
            21 => Ok(Refusal::RowNotLookedAt),
            22 => Ok(Refusal::DepthOutside),
            _ => Err(UnknownNumber { number }),
        }
    }
}

// The number and the reason, as `3: a number ..`.
impl fmt::Display for Refusal {
    ghost output = { λ x. Some (refusal_text x) };

    fn fmt<W: fmt::Write>(&self, f: &mut fmt::Formatter<W>) -> fmt::Result {
        let number = self.number();
        let reason = self.reason();
        write!(f, "{number}: {reason}")
    }
}

impl Error for Refusal {}

/// A refusal of a file. Some carry the byte place where the faulty number, or the surplus, begins.
#[derive(Clone, Copy, PartialEq, Eq, Debug)]
pub struct Fault {
    pub refusal: Refusal,
    pub place: Option<usize>,
}

impl Fault {
    /// A refusal with the place where it begins.
    pub fn at(refusal: Refusal, place: usize) -> Fault
        ensures { result ≡ fault_at refusal place }
    {
        Fault {
            refusal,
            place: Some(place),
        }
    }

    /// A refusal that has no place.
    pub fn bare(refusal: Refusal) -> Fault
        ensures { result ≡ fault_of refusal }
    {
        Fault {
            refusal,
            place: None,
        }
    }
}

// A refusal becomes a fault that has no place.
impl From<Refusal> for Fault {
    ghost from_gives = { λ r f. f ≡ fault_of r };

    fn from(refusal: Refusal) -> Fault {
        Fault::bare(refusal)
    }
}

// The number, the place if there is one, and the reason, as `3 at 7: a number ..`.
impl fmt::Display for Fault {
    ghost output = { λ x. Some (fault_text x) };

    fn fmt<W: fmt::Write>(&self, f: &mut fmt::Formatter<W>) -> fmt::Result {
        let refusal = self.refusal;
        let number = refusal.number();
        let reason = refusal.reason();
        match self.place {
            Some(place) => write!(f, "{number} at {place}: {reason}"),
            None => write!(f, "{refusal}"),
        }
    }
}

impl Error for Fault {}

#[cfg(test)]
mod tests {
    use super::*;
    use std::test::Fail;

    #[test]
    fn prints_number_place_and_reason(rt: HostRuntime) -> Result<(), Fail> {
        let heap = rt.alloc();
        let padded = Fault::at(Refusal::NumberPadded, 7);
        assert_eq!(rt;
            format!(in heap; "{padded}")?.as_str(),
            "3 at 7: a number is not in its shortest form: its last byte is zero"
        );
        let short = Fault::bare(Refusal::TooShort);
        assert_eq!(rt;
            format!(in heap; "{short}")?.as_str(),
            "12: a table, ring, limit or buffer is too short for what has to be written"
        );
        Ok(())
    }

    #[test]
    fn numbers_lead_back(rt: HostRuntime) {
        let mut found = 0u8;
        for n in 0..=255u8 {
            if let Some(refusal) = Refusal::from_number(n) {
                assert_eq!(rt; refusal.number(), n);
                found = found.saturating_add(1);
            }
        }
        assert_eq!(rt; found, 22);
    }
}
