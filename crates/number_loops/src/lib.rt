// Loops over eight-byte numbers as C functions, for the benchmark alone: `./library number_loops`. The library that is shipped has
// none of it. They are proved safe and ending; that their answers are the Rust's, the benchmark compares.
#![tactic(auto)]

use numbers::Number;

// The sum of the numbers in s, eight bytes each, as it wraps.
#[unsafe(no_mangle)]
pub extern "C" fn number_loops_sum(s: &[u8]) -> u64 {
    let mut sum: u64 = 0;
    for b in s.chunks_exact(8) {
        sum = sum.wrapping_add(u64::read(b, 0));
    }
    sum
}

// Stores first, first + step, .. in s, eight bytes each.
#[unsafe(no_mangle)]
pub extern "C" fn number_loops_fill(s: &mut [u8], first: u64, step: u64) {
    let mut n = first;
    for b in s.chunks_exact_mut(8) {
        n.write(b, 0);
        n = n.wrapping_add(step);
    }
}
