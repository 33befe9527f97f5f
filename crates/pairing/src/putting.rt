//! Numbers put to lent bytes.
ghost use Rattle.std.specs.Prelude.{◌≤◌, length};
ghost use Rattle.outputs.specs.Puts.{Puts};

use itoa::{Buffer, Integer};
use outputs::Output;

// Puts a number in decimal.
pub(crate) fn put_decimal<I: Integer>(output: &mut Output<'_>, n: I)
    ensures puts { Puts output.old output.new (I.text n) }
    ensures short { length (I.text n) ≤ I.MAX_STR_LEN }
{
    let mut buffer = Buffer::new();
    output.put(buffer.format(n).as_bytes());
}
