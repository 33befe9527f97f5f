//! A source of somebody else's: it answers the five questions, and writes no more.
use crate::sheets::table_sheet;
use hall::Hall;
use refusals::Refusal;
use sources::{Source, Times};
use std::test::Fail;

// Tells what the source below it tells.
#[derive(Drop)]
struct Plain<S> {
    below: S,
}

impl<S: Source> Source for Plain<S> {
    ghost meaning = { λ s. S.Source.meaning s.below };

    ghost sound = { λ s. S.Source.sound s.below };

    fn carriers(&self) -> usize {
        self.below.carriers()
    }

    fn jobs(&self) -> usize {
        self.below.jobs()
    }

    fn ceiling(&self) -> u64 {
        self.below.ceiling()
    }

    fn row_len(&self, carrier: usize) -> Option<usize> {
        self.below.row_len(carrier)
    }

    fn entry(&self, carrier: usize, index: usize) -> Option<(usize, u64)> {
        self.below.entry(carrier, index)
    }
}

// Under a layer too, the auction is that of the sheet.
#[test]
fn a_source_with_five_answers_is_looked_at(rt: HostRuntime) -> Result<(), Fail> {
    let mut own = Hall::new(Times {
        below: Plain {
            below: table_sheet(),
        },
        factor: 4,
    });
    let mut sheets = Hall::new(Times {
        below: table_sheet(),
        factor: 4,
    });
    own.start(1, 2)?;
    sheets.start(1, 2)?;
    let report = own.run(3, 100)?;
    assert_eq!(rt; Ok(report), sheets.run(3, 100));
    assert_eq!(rt; own.worth(), Ok(96));
    for carrier in 0..3 {
        assert_eq!(rt; own.standing(carrier), sheets.standing(carrier));
    }
    Ok(())
}

// The same, and it holds a function pointer. A method of `Source` with a type parameter that an `impl` may write would have to be
// written here too: nothing else proves it at such a type.
#[derive(Drop)]
struct Tagged<S> {
    below: S,
    tag: fn(u8) -> u8,
}

impl<S: Source> Source for Tagged<S> {
    ghost meaning = { λ s. S.Source.meaning s.below };

    ghost sound = { λ s. S.Source.sound s.below };

    fn carriers(&self) -> usize {
        self.below.carriers()
    }

    fn jobs(&self) -> usize {
        self.below.jobs()
    }

    fn ceiling(&self) -> u64 {
        self.below.ceiling()
    }

    fn row_len(&self, carrier: usize) -> Option<usize> {
        self.below.row_len(carrier)
    }

    fn entry(&self, carrier: usize, index: usize) -> Option<(usize, u64)> {
        self.below.entry(carrier, index)
    }
}

fn same(tag: u8) -> u8 {
    tag
}

// What an auction over any source comes to. Generic, since a hall over a source that holds a pointer is not proved elsewhere.
fn auctioned<S: Source + Drop>(source: S) -> Result<u64, Refusal> {
    let mut hall = Hall::new(Times {
        below: source,
        factor: 4,
    });
    hall.start(1, 2)?;
    hall.run(3, 100)?;
    hall.worth()
}

#[test]
fn a_source_that_holds_a_pointer_is_looked_at(rt: HostRuntime) {
    let tagged = Tagged {
        below: table_sheet(),
        tag: same,
    };
    assert_eq!(rt; auctioned(tagged), Ok(96));
}
