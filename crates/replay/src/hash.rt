// The 64-bit FNV-1a hash of some bytes, and its 16 hex digits.
use pen::Pen;
use sizes::wide64;

// The hash times 2^40 + 435, modulo 2^64.
fn times(h: u64) -> u64 {
    let low = h % 0x100000000 * 435;
    let high = h / 0x100000000 * 435 % 0x100000000 * 0x100000000;
    let far = h % 0x1000000 * 0x10000000000;
    let near = std::num::wrapping_add_u64(low, high);
    std::num::wrapping_add_u64(near, far)
}

pub(crate) fn fnv(bytes: &[u8]) -> u64 {
    let mut h: u64 = 0xcbf29ce484222325;
    for b in bytes {
        h = times(h ^ wide64(*b));
    }
    h
}

fn digit(n: u64) -> u8 {
    let d = (n % 16) as u8;
    if d < 10 { 48 + d } else { 87 + d }
}

fn two(pen: &mut Pen, n: u64) {
    pen.byte(digit(n / 16));
    pen.byte(digit(n));
}

fn four(pen: &mut Pen, n: u64) {
    two(pen, n / 0x100);
    two(pen, n);
}

fn eight(pen: &mut Pen, n: u64) {
    four(pen, n / 0x10000);
    four(pen, n);
}

pub(crate) fn digits(pen: &mut Pen, n: u64) {
    eight(pen, n / 0x100000000);
    eight(pen, n);
}
