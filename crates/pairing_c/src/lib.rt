//! The call for hosts written in C, as a static library: include/torwhisk.h declares it.
#![tactic(auto)]

ghost use Rattle.std.specs.Prelude.{◌≡◌, ℕ, List, length, Ok};
ghost use Rattle.pairing.specs.Pairs.{AtMost, ListsFile, listed, listed_within, most_text, put_into, signed_size};

use pairing::list_pairs;

/// The call for C hosts: the listing's length, or minus the number of the refusal.
#[unsafe(no_mangle)]
pub extern "C" fn torwhisk_pair(sheet: &[u8], out: &mut [u8]) -> i64
    ensures answer { result ≡ signed_size (listed_within sheet.now (length out.old)) }
    ensures after { out.new ≡ put_into out.old (listed_within sheet.now (length out.old)) }
    ensures paired { (text : List ℕ) → listed sheet.now ≡ Ok text → ListsFile sheet.now text }
    ensures short { AtMost most_text (listed sheet.now) }
{
    match list_pairs(sheet, out) {
        Ok(len) => len as i64,
        Err(refusal) => -i64::from(refusal.number()),
    }
}
