//! The numbers of a sheet file, in groups of seven bits, the lowest first: read one, write one, how many bytes one has.
#![tactic(auto)]

ghost use Rattle.std.specs.Prelude.{◌≡◌, ℕ, ◌+◌, ◌^◌, ◌<◌, ◌≤◌, ◌&&◌, List, length, take, drop, is_ok, IfOk, if◌then◌else◌, Ok, Some, ◌==◌, nat_lt};
ghost use Rattle.numbers.specs.Groups.{encoded, most_groups};
ghost use Rattle.numbers.specs.Laws.{ReadsExactly, Sized};
ghost use Rattle.numbers.specs.Reading.{read_at};
ghost use Rattle.numbers.specs.Writing.{over, write_at};

use refusals::{Fault, Refusal};

/// The most groups that a number of a sheet file may have.
pub const MOST_GROUPS: usize = 6;

/// Reads the number that begins at a place: its value, and the place behind it.
pub fn read_number(bytes: &[u8], at: usize) -> Result<(u64, usize), Fault>
    ensures value { result ≡ read_at bytes.now at }
    ensures exact { ReadsExactly bytes.now at result }
{
    if let Some(read) = read_few(bytes, at) {
        return Ok(read);
    }
    read_any(bytes, at)
}

// Reads a number of at most three groups, as most are, without a loop; nothing where it has more, or is faulty.
fn read_few(bytes: &[u8], at: usize) -> Option<(u64, usize)>
    ensures { (x : ℕ × ℕ) → result ≡ Some x → Ok x ≡ read_at bytes.now at }
{
    let first = u64::from(*bytes.get(at)?);
    if first < 128 {
        return Some((first, at + 1));
    }
    let second = u64::from(*bytes.get(at + 1)?);
    if second < 128 {
        if second == 0 {
            return None;
        }
        return Some((first - 128 + second * 128, at + 2));
    }
    let third = u64::from(*bytes.get(at + 2)?);
    if 0 < third && third < 128 {
        return Some((
            first - 128 + (second - 128) * 128 + third * 128 * 128,
            at + 3,
        ));
    }
    None
}

// Reads any number, group by group.
fn read_any(bytes: &[u8], at: usize) -> Result<(u64, usize), Fault>
    ensures value { result ≡ read_at bytes.now at }
    ensures exact { ReadsExactly bytes.now at result }
{
    let groups = groups_from(bytes, at);
    let mut value = 0;
    let mut scale = 1;
    for (k, &group) in groups.iter().enumerate() {
        let group = u64::from(group);
        if group < 128 {
            if is_padded(k, group) {
                return Err(Fault::at(Refusal::NumberPadded, at));
            }
            return Ok((value + group * scale, at + k + 1));
        }
        value += (group - 128) * scale;
        scale *= 128;
    }
    if groups.len() < MOST_GROUPS {
        return Err(Fault::at(Refusal::NumberCut, at));
    }
    Err(Fault::at(Refusal::NumberTooLong, at))
}

// The bytes from a place on, and no more of them than a number may have.
fn groups_from(bytes: &[u8], at: usize) -> &[u8]
    ensures { result.now ≡ take most_groups (drop at bytes.now) }
{
    let rest = bytes.get(at..).unwrap_or(&[]);
    rest.get(..MOST_GROUPS).unwrap_or(rest)
}

// A number of several groups is not in its shortest form where its last group is zero.
fn is_padded(groups_before: usize, last: u64) -> bool
    ensures { result ≡ (nat_lt 0 groups_before && last == 0) }
{
    groups_before > 0 && last == 0
}

/// How many bytes a number has when it is written; more than six cannot be written.
pub fn number_len(n: u64) -> usize
    ensures value { result ≡ length (encoded n) }
    ensures sized { Sized n }
{
    // By the logarithm to base 2, which is one instruction: a group has seven bits.
    n.max(1).ilog2() as usize / 7 + 1
}

/// Writes a number from a place on, and gives the place behind it. Where it has more than six groups, or they do not
/// fit into the bytes, it is refused and nothing is written.
pub fn write_number(out: &mut [u8], at: usize, n: u64) -> Result<usize, Refusal>
    ensures value { result ≡ write_at (length out.old) at n }
    ensures after { out.new ≡ (if is_ok result then over out.old at (encoded n) else out.old) }
    ensures read_back { IfOk result (λ next. read_at out.new at ≡ Ok (n, next)) }
{
    let len = number_len(n);
    if len > MOST_GROUPS || at > out.len() || out.len() - at < len {
        return Err(Refusal::TooShort);
    }
    put_groups(&mut out[at..at + len], n);
    Ok(at + len)
}

// Writes the groups of a number into as many places as it has.
fn put_groups(places: &mut [u8], n: u64)
    requires { length places.old ≡ length (encoded n) }
    ensures { places.new ≡ encoded n }
{
    let mut rest = n;
    for place in places.iter_mut() {
        *place = if rest < 128 {
            rest as u8
        } else {
            (128 + rest % 128) as u8
        };
        rest /= 128;
    }
}

#[cfg(test)]
mod tests {
    use super::*;
    use std::process::Abort;

    // Writes a number behind a byte, reads it again, and looks at the bytes around it.
    fn goes_round(rt: &impl Abort, n: u64, len: usize) {
        let mut out = [7u8; 9];
        assert!(rt; len < 8);
        assert_eq!(rt; number_len(n), len);
        assert_eq!(rt; write_number(&mut out, 1, n), Ok(1 + len));
        assert_eq!(rt; read_number(&out, 1), Ok((n, 1 + len)));
        assert_eq!(rt; out[0], 7);
        assert_eq!(rt; out[1 + len..].iter().copied().min(), Some(7));
        assert_eq!(rt; out[1 + len..].iter().copied().max(), Some(7));
    }

    #[test]
    fn boundaries_go_round(rt: HostRuntime) {
        let bounds = [
            (0, 1),
            (127, 1),
            (128, 2),
            ((1 << 35) - 1, 5),
            (1 << 35, 6),
            (1 << 36, 6),
            ((1 << 42) - 1, 6),
        ];
        for (n, len) in bounds {
            goes_round(&rt, n, len);
        }
    }

    // What is read of some bytes from the place 0 on.
    fn refuses(rt: &impl Abort, bytes: &[u8], refusal: Refusal) {
        assert_eq!(rt; read_number(bytes, 0), Err(Fault::at(refusal, 0)));
    }

    #[test]
    fn faulty_bytes_are_refused(rt: HostRuntime) {
        let more = [0x80u8; 6];
        for groups in 0..6 {
            refuses(&rt, &more[0..groups], Refusal::NumberCut);
        }
        refuses(&rt, &more, Refusal::NumberTooLong);
        refuses(
            &rt,
            &[0x80, 0x80, 0x80, 0x80, 0x80, 0x80, 0x01],
            Refusal::NumberTooLong,
        );
        refuses(&rt, &[0x80, 0x00], Refusal::NumberPadded);
        refuses(
            &rt,
            &[0xff, 0xff, 0xff, 0xff, 0xff, 0x00],
            Refusal::NumberPadded,
        );
        assert_eq!(rt; read_number(&[5], 2), Err(Fault::at(Refusal::NumberCut, 2)));
        assert_eq!(rt;
            read_number(&[5, 0x80, 0x00], 1),
            Err(Fault::at(Refusal::NumberPadded, 1))
        );
    }

    // Such a write is refused, and the bytes are as they were.
    fn does_not_fit(rt: &impl Abort, at: usize, n: u64) {
        let mut out = [7u8; 6];
        assert_eq!(rt; write_number(&mut out, at, n), Err(Refusal::TooShort));
        assert_eq!(rt; out, [7u8; 6]);
    }

    #[test]
    fn what_does_not_fit_is_refused(rt: HostRuntime) {
        does_not_fit(&rt, 0, 1 << 42);
        does_not_fit(&rt, 0, u64::MAX);
        does_not_fit(&rt, 1, 1 << 36);
        does_not_fit(&rt, 6, 0);
        does_not_fit(&rt, usize::MAX, 0);
        assert_eq!(rt; number_len(1 << 42), 7);
        assert_eq!(rt; number_len(u64::MAX), 10);
    }
}
