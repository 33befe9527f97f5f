//! What is checked of each sheet, and what is printed where it does not hold.
use std::fmt;

// What has to hold of the call of `pair` on a file.
#[derive(Clone, Copy, Debug)]
pub(crate) enum Promise {
    Paired,
    Lines,
    Best,
    Short,
    Changed,
    Cut,
    Longer,
}

impl Promise {
    fn text(self) -> &'static str {
        match self {
            Promise::Paired => {
                "a sheet is paired, and the buffer stays as it was behind the listing"
            }
            Promise::Lines => "each line of the listing is right",
            Promise::Best => {
                "the worth is that of the best pairing of the carriers served or out"
            }
            Promise::Short => {
                "a buffer one byte too short is refused with 12, and stays as it was"
            }
            Promise::Changed => {
                "a file with one byte changed leaves the buffer as it was, but for its listing"
            }
            Promise::Cut => "a cut file is refused with 1, and the buffer stays as it was",
            Promise::Longer => {
                "a file with a byte more is refused with 10, and the buffer stays as it was"
            }
        }
    }
}

// Bytes, printed in hexadecimal.
#[derive(Clone, Copy, Debug)]
pub(crate) struct Hex<'a>(pub(crate) &'a [u8]);

impl fmt::Display for Hex<'_> {
    fn fmt<W: fmt::Write>(&self, f: &mut fmt::Formatter<W>) -> fmt::Result {
        for byte in self.0 {
            write!(f, "{byte:02x}")?;
        }
        Ok(())
    }
}

// What did not hold, and of which file.
#[derive(Clone, Copy, Debug)]
pub(crate) struct Failure<'a> {
    pub(crate) promise: Promise,
    pub(crate) file: &'a [u8],
}

impl fmt::Display for Failure<'_> {
    fn fmt<W: fmt::Write>(&self, f: &mut fmt::Formatter<W>) -> fmt::Result {
        let promise = self.promise;
        let text = promise.text();
        let file = Hex(self.file);
        write!(f, "broken: {text} ({promise:?}); file {file}")
    }
}
