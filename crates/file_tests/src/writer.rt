//! The writer.
use sheetfile::write;
use sources::{Floor, Sheet};
use std::test::Fail;
use three_by_three::{ENTRIES, HEADING, STARTS};

// Below a floor of 5 the worths 1, 4 and 3 are 0. Their entries are neither written nor counted, and the byte behind the
// file stays 255.
const FLOORED: [u8; 20] =
    *b"\x03\x03\x0e\x02\x00\x05\x01\x0a\x01\x01\x0b\x03\x00\x05\x01\x0e\x02\x08\x06\xff";

#[test]
fn entries_of_worth_0_are_left_out(rt: HostRuntime) -> Result<(), Fail> {
    let mut sheet = Sheet::new();
    sheet.fill(HEADING, &STARTS, &ENTRIES)?;
    let floored = Floor {
        below: sheet,
        floor: 5,
    };
    let mut out = [255u8; 20];
    assert_eq!(rt; write(&floored, &mut out), Ok(19));
    assert_eq!(rt; out, FLOORED);
    Ok(())
}
