// Bytes from a reader and to a writer: as much as there is, as much as there is room for, and all of what is given. A
// read that fails counts as the end of the input, and a write that fails is answered with `false`.
#![tactic(auto)]

ghost use Rattle.std.specs.Prelude.{◌≡◌, true, ◌≤◌, length, take};
ghost use Rattle.std.specs.Fmt.{decimal};
ghost use Rattle.std.specs.Io.KnownBytes.{Appends, Consumes};

use std::io::{Read, Write};

// Reads once, as much as there is, into the front of the space, and answers how many bytes came: 0 at the end of the
// input.
pub fn read_some<R: Read>(input: &mut R, space: &mut [u8]) -> usize
    ensures in_bounds { result ≤ length space.new }
    ensures bytes { Consumes (R.remaining input.old) (R.remaining input.new)
        (take result space.new) }
{
    input.read(space).unwrap_or(0)
}

// Reads until the space is full or the input ends, and answers how many bytes came.
pub fn read_full<R: Read>(input: &mut R, space: &mut [u8]) -> usize
    ensures in_bounds { result ≤ length space.new }
    ensures bytes { Consumes (R.remaining input.old) (R.remaining input.new)
        (take result space.new) }
{
    // No `for`: a turn goes on by as many bytes as came, and not by one.
    let mut done = 0;
    while done < space.len() {
        let n = read_some(input, &mut space[done..]);
        if n == 0 {
            return done;
        }
        done += n;
    }
    done
}

// Writes once, as much as is taken, and answers how many of the bytes were.
fn write_some<W: Write>(output: &mut W, bytes: &[u8]) -> usize
    ensures in_bounds { result ≤ length bytes.now }
    ensures written { Appends (W.contents output.old) (W.contents output.new)
        (take result bytes.now) }
{
    output.write(bytes).unwrap_or(0)
}

// Writes all of the bytes, or stops at the first write that fails or takes nothing.
pub fn write_all<W: Write>(output: &mut W, bytes: &[u8]) -> bool
    ensures { result ≡ true → Appends (W.contents output.old) (W.contents output.new) bytes.now }
{
    // No `for`: a turn goes on by as many bytes as were taken, and not by one.
    let mut done = 0;
    while done < bytes.len() {
        let n = write_some(output, &bytes[done..]);
        if n == 0 {
            return false;
        }
        done += n;
    }
    true
}

// Writes a number in decimal.
pub fn print_decimal<W: Write>(output: &mut W, n: u64) -> bool
    ensures { result ≡ true → Appends (W.contents output.old) (W.contents output.new) (decimal n) }
{
    let mut space = itoa::Buffer::new();
    write_all(output, space.format(n).as_bytes())
}
