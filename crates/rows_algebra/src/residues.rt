//! Residues modulo 2^w.

use rec_algebra::{Residues, Ring};
use scev_base::{Width, inverse_odd, sext, signed, trunc, wrap, zext};

const BIT: Width = Width { bits: 1 };

const BYTE: Width = Width { bits: 8 };

const WORD: Width = Width { bits: 64 };

/// Odd numbers, a width, and the inverse. That of -1 is -1.
const INVERSES: [(u64, Width, u64); 5] = [
    (3, BYTE, 171),
    (7, BYTE, 183),
    (5, BIT, 1),
    (3, WORD, 0xAAAA_AAAA_AAAA_AAAB),
    (u64::MAX, WORD, u64::MAX),
];

#[test]
fn inverses(rt: HostRuntime) {
    for (n, w, inverse) in INVERSES {
        assert!(rt; n % 2 == 1);
        assert_eq!(rt; inverse_odd(n, w), inverse);
    }
    for half in 0..128u64 {
        let n = 2 * half + 1;
        let inverse = inverse_odd(n, BYTE);
        assert!(rt; inverse < 256);
        assert_eq!(rt; n.wrapping_mul(inverse) % 256, 1);
    }
}

/// Numbers on each side of the limit between the signs, and their signed readings.
const READINGS: [(u64, Width, i64); 6] = [
    (1, BIT, -1),
    (0, BIT, 0),
    (128, BYTE, -128),
    (127, BYTE, 127),
    (1 << 63, WORD, i64::MIN),
    (u64::MAX, WORD, -1),
];

#[test]
fn signed_readings(rt: HostRuntime) {
    for (n, w, reading) in READINGS {
        assert_eq!(rt; signed(trunc(n, w), w), reading);
    }
}

/// Numbers, their width, a width at least as wide, and what they are there, filled up by their signs.
const EXTENSIONS: [(u64, Width, Width, u64); 5] = [
    (1, BIT, BIT, 1),
    (1, BIT, WORD, u64::MAX),
    (128, BYTE, WORD, 0xFFFF_FFFF_FFFF_FF80),
    (127, BYTE, WORD, 127),
    (1 << 63, WORD, WORD, 1 << 63),
];

#[test]
fn other_widths(rt: HostRuntime) {
    for (n, from, to, extended) in EXTENSIONS {
        assert!(rt; from.get() <= to.get());
        assert_eq!(rt; sext(trunc(n, from), from, to), extended);
    }
    assert_eq!(rt; zext(128, BYTE, WORD), 128);
    assert_eq!(rt; trunc(0x1234, BYTE), 0x34);
    assert_eq!(rt; wrap(-1, BYTE), 255);
}

#[test]
fn sums_and_products_wrap(rt: HostRuntime) {
    let bytes = Residues { width: BYTE };
    assert_eq!(rt; bytes.add(200, 100), 44);
    assert_eq!(rt; bytes.mul(16, 17), 16);
}
