// What the test programs share: the number of an answer, and a number alone on a line.

use refusals::Refusal;
use std::io::Stdout;

// 0, or the number of the refusal.
pub fn number<T: Copy>(answer: Result<T, Refusal>) -> u32 {
    match answer {
        Ok(_) => 0,
        Err(refusal) => u32::from(refusal),
    }
}

// A number alone on a line.
pub fn print_line(n: u32, output: &mut Stdout) -> bool {
    let is_printed = streams::print_decimal(output, n as u64);
    if !is_printed {
        return false;
    }
    streams::write_all(output, b"\n")
}
