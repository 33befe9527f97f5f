//! The states of the loader.
use refusals::{Fault, Refusal};
use sheetfile::Bare;
use sources::{Entry, Heading};
use three_by_three::{FILE, HEADING};

// What comes of closing the file after so many rows.
fn closed_after(rows: usize) -> Result<Heading, Fault> {
    let mut starts = [0usize; 4];
    let mut entries = [Entry { job: 0, worth: 0 }; 9];
    let mut loader = Bare::new(&FILE).read_heading(&mut starts)?;
    for _ in 0..rows {
        loader.read_row(&mut starts, &mut entries)?;
    }
    Ok(loader.close()?.heading())
}

#[test]
fn every_row_is_read_before_a_file_is_closed(rt: HostRuntime) {
    assert_eq!(rt; closed_after(0), Err(Fault::bare(Refusal::RowsMissing)));
    assert_eq!(rt; closed_after(2), Err(Fault::bare(Refusal::RowsMissing)));
    assert_eq!(rt; closed_after(3), Ok(HEADING));
    assert_eq!(rt; closed_after(4), Err(Fault::bare(Refusal::NoRowLeft)));
}
