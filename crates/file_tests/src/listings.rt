//! What `inspect` prints.
use inspection::inspect_sheet;
use refusals::{Fault, Refusal};
use std::test::Fail;
use three_by_three::FILE;

#[test]
fn lists_a_sheet(rt: HostRuntime) -> Result<(), Fail> {
    let printed = inspect_sheet(rt.alloc(), &FILE)?;
    let told =
        "carriers 3 jobs 3 ceiling 14\n0: 0=5 1=10 2=1\n1: 0=4 1=11 2=3\n2: 0=5 1=14 2=8\n9 entries in 25 bytes, the same when written again\n";
    assert_eq!(rt; printed.text.as_str(), told);
    assert_eq!(rt; printed.refused, None);
    Ok(())
}

#[test]
fn one_carrier_more_is_refused_at_the_end(rt: HostRuntime) -> Result<(), Fail> {
    let mut bytes = FILE;
    bytes[0] = 4;
    let printed = inspect_sheet(rt.alloc(), &bytes)?;
    let told = "refused 1 at 25: the bytes end before a number, or inside one\n";
    assert_eq!(rt; printed.text.as_str(), told);
    assert_eq!(rt; printed.refused, Some(Fault::at(Refusal::NumberCut, 25)));
    Ok(())
}
