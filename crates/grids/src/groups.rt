//! The numbers of a sheet file, by code of their own, so that what is tried is not called by its trial.
ghost use Rattle.std.specs.Prelude.{◌≡◌, ◌++◌, OnOk};
ghost use Rattle.numbers.specs.Groups.{encoded};

use std::alloc::AllocError;

/// Appends a number in groups of seven bits, the lowest first; the top bit says that another follows.
#[tactic(auto, using(numbers::proofs::Groups::encoded_small, numbers::proofs::Groups::encoded_large))]
pub fn push_number(bytes: &mut Vec<u8>, n: u64) -> Result<(), AllocError>
    ensures { OnOk result (bytes.new.items ≡ bytes.old.items ++ encoded n) }
{
    let mut rest = n;
    while rest >= 128 {
        bytes.push((128 + rest % 128) as u8)?;
        rest /= 128;
    }
    bytes.push(rest as u8)?;
    Ok(())
}
