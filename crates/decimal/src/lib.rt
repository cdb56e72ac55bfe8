// A number field read from a part of a slice, and a number written into a buffer.
#![tactic(auto)]

ghost use Rattle.std.specs.Prelude.{◌≡◌, ◌+◌, ◌≤◌, ◌<◌, length};
ghost use Rattle.std.proofs.lemmas.List.Edits.{sets};
ghost use Rattle.decimal.specs.Decimal.{value_from, number_of, decimal, max_digits};

// The number that digits write.
fn scan(s: &[u8]) -> Option<u32>
    requires { length s.now ≤ max_digits }
    ensures { result ≡ value_from 0 s.now }
{
    let mut acc: u32 = 0;
    for d in s {
        if !d.is_ascii_digit() {
            return None;
        }
        acc = acc * 10 + (*d - b'0') as u32;
    }
    Some(acc)
}

// A whole field: one to seven digits, no sign, no leading zero.
pub fn read_number(s: &[u8]) -> Option<u32>
    ensures { result ≡ number_of s.now }
{
    if s.len() == 0 {
        return None;
    }
    if 7 < s.len() {
        return None;
    }
    if s.len() == 1 {
        return scan(s);
    }
    if s[0] == b'0' {
        return None;
    }
    scan(s)
}

// How many digits n is written with: as ranges, in place of `ilog10`, so that they can be held against the layout rule.
pub fn digit_count(n: u32) -> usize
    ensures { result ≡ length (decimal n) }
{
    match n {
        0..=9 => 1,
        10..=99 => 2,
        100..=999 => 3,
        1_000..=9_999 => 4,
        10_000..=99_999 => 5,
        100_000..=999_999 => 6,
        1_000_000..=9_999_999 => 7,
        10_000_000..=99_999_999 => 8,
        100_000_000..=999_999_999 => 9,
        1_000_000_000..=4_294_967_295 => 10,
    }
}

// Writes n at a place of the buffer, as much of it as fits, and answers the place behind it.
pub fn write_number(buf: &mut [u8], at: usize, n: u32) -> usize
    requires { at ≤ 4294967296 }
    ensures value { result ≡ at + length (decimal n) }
    ensures buf_after { buf.new ≡ sets buf.old at (decimal n) }
    ensures upper_bound { result ≤ at + 10 }
{
    let count = digit_count(n);
    let mut rest = n;
    for i in (0..count).rev() {
        lists::put(buf, at + i, b'0' + (rest % 10) as u8);
        rest /= 10;
    }
    at + count
}
