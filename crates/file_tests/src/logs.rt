//! What `replay` prints.
use refusals::{Fault, Refusal};
use replaying::log::Trouble;
use replaying::replay_log;
use std::test::Fail;
use three_by_three::FILE;

#[test]
fn layers_lie_over_the_sheet(rt: HostRuntime) -> Result<(), Fail> {
    let log = b"times 2\nfloor 12\n\nstart 1 4\nsummon 0\nlook 0\nsettle 0";
    let outcome = replay_log(rt.alloc(), &FILE, log)?;
    let told = "start 1 4: accepted\nsummon 0: accepted\nlook 0: accepted\nsettle 0: job 1 at 21\n";
    assert_eq!(rt; outcome.text.as_str(), told);
    assert_eq!(rt; outcome.refused, None);
    Ok(())
}

#[test]
fn a_layer_behind_a_call_is_named(rt: HostRuntime) -> Result<(), Fail> {
    let outcome = replay_log(rt.alloc(), b"", b"# a log\nworth\ntimes 2\nstop\n")?;
    assert_eq!(rt; outcome.text.as_str(), "line 3 is not understood\n");
    assert_eq!(rt; outcome.refused, Some(Trouble::Line(3)));
    Ok(())
}

#[test]
fn a_faulty_sheet_is_refused(rt: HostRuntime) -> Result<(), Fail> {
    let mut bytes = FILE;
    bytes[0] = 4;
    let outcome = replay_log(rt.alloc(), &bytes, b"worth\n")?;
    let told = "refused 1 at 25: the bytes end before a number, or inside one\n";
    assert_eq!(rt; outcome.text.as_str(), told);
    assert_eq!(rt;
        outcome.refused,
        Some(Trouble::Sheet(Fault::at(Refusal::NumberCut, 25)))
    );
    Ok(())
}
