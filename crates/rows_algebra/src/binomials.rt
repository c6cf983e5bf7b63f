//! Binomials, and recurrences at a turn.

ghost use Rattle.std.specs.Prelude.{◌≤◌};

use crate::halving::binomial_by_halving;
use binomial_eval::{Factorial, binomial, eval_rec, factorial_parts};
use scev_base::{Steps, Width, trunc};

const BYTE: Width = Width { bits: 8 };

const SINGLE: Width = Width { bits: 32 };

const DOUBLE: Width = Width { bits: 64 };

#[test]
fn parts_of_factorials(rt: HostRuntime) {
    let of_six = Factorial {
        twos: 1,
        odd: 3,
        inverse: 12_297_829_382_473_034_411,
    };
    assert_eq!(rt; factorial_parts(3), of_six);
    let of_40320 = Factorial {
        twos: 7,
        odd: 315,
        inverse: 3_455_104_445_551_947_763,
    };
    assert_eq!(rt; factorial_parts(8), of_40320);
}

/// How many ways there are to choose three of so many, modulo 2^64 and modulo 2^32.
const THREE_OF: [(u64, u64, u64); 16] = [
    (0, 0, 0),
    (2, 0, 0),
    (3, 1, 1),
    (5, 10, 10),
    (10, 120, 120),
    (100, 161_700, 161_700),
    (0xFFFF_FFFF, 12_297_829_390_347_141_119, 2_147_483_647),
    (0x1_0000_0000, 3_074_457_347_049_914_368, 0),
    (0x1_0000_0007, 12_297_829_459_066_617_891, 2_147_483_683),
    (
        1_000_000_000_000_000_000,
        7_927_769_146_925_514_752,
        936_116_224,
    ),
    (
        0x1234_5678_9ABC_DEF0,
        9_619_655_941_319_549_392,
        2_345_918_928,
    ),
    (
        0x7FFF_FFFF_FFFF_FFFF,
        4_611_686_018_427_387_903,
        4_294_967_295,
    ),
    (0x8000_0000_0000_0000, 9_223_372_036_854_775_808, 0),
    (
        0x8000_0000_0000_3039,
        4_611_686_331_912_186_444,
        4_247_153_228,
    ),
    (u64::MAX - 1, 18_446_744_073_709_551_612, 4_294_967_292),
    (u64::MAX, 9_223_372_036_854_775_807, 4_294_967_295),
];

#[test]
fn three_of_many(rt: HostRuntime) {
    for (t, wide, narrow) in THREE_OF {
        assert_eq!(rt; binomial::<3>(t, DOUBLE), wide);
        assert_eq!(rt; binomial::<3>(t, SINGLE), narrow);
    }
}

/// A number, and how many ways there are to choose eight of so many modulo 2^64.
const EIGHT_OF: [(u64, u64); 3] = [
    (u64::MAX, 11_529_215_046_068_469_761),
    (1_000_000_000_000_000_000, 7_349_912_447_896_223_744),
    (1 << 63, 17_293_822_569_102_704_640),
];

#[test]
fn eight_of_many(rt: HostRuntime) {
    for (t, wide) in EIGHT_OF {
        assert_eq!(rt; binomial::<8>(t, DOUBLE), wide);
    }
    assert_eq!(rt; binomial::<0>(u64::MAX, DOUBLE), 1);
    assert_eq!(rt; binomial::<1>(u64::MAX, BYTE), 255);
}

/// The binomial coefficient of `t` at `k`, modulo 2^w.
fn binomial_at(t: u64, k: usize, w: Width) -> u64
    requires { k ≤ 8 }
{
    match k {
        0 => binomial::<0>(t, w),
        1 => binomial::<1>(t, w),
        2 => binomial::<2>(t, w),
        3 => binomial::<3>(t, w),
        4 => binomial::<4>(t, w),
        5 => binomial::<5>(t, w),
        6 => binomial::<6>(t, w),
        7 => binomial::<7>(t, w),
        _ => binomial::<8>(t, w),
    }
}

/// 2,000 cases: all widths and all places several times, and turns of all lengths, from the numbers modulo 2^64
/// of a linear congruential generator, with Knuth's factor and summand.
#[test]
fn as_by_halving(rt: HostRuntime) {
    let mut state: u64 = 0;
    for case in 0..2000u32 {
        state = state
            .wrapping_mul(6_364_136_223_846_793_005)
            .wrapping_add(1_442_695_040_888_963_407);
        let t = state >> (case % 64);
        let k = (case % 9) as usize;
        let w = Width {
            bits: 1 + case / 9 % 64,
        };
        assert_eq!(rt; binomial_at(t, k, w), binomial_by_halving(t, k, w));
    }
}

const NINE_PARTS: &[u64] = &[
    0x9E37_79B9_7F4A_7C15,
    0x3C6E_F372_FE94_F82A,
    0xDAA6_6D2C_7DDF_743F,
    0x78DD_E6E5_FD29_F054,
    0x1715_609F_7C74_6C69,
    0xB54C_DA58_FBBE_E87E,
    0x5384_5412_7B09_6493,
    0xF1BB_CDCB_FA53_E0A8,
    0x8FF3_4785_799E_5CBD,
];

/// At most nine parts of a recurrence, a turn, a width, the number at the turn, and how many multiplications it
/// takes.
const AT_TURNS: [(&[u64], u64, Width, u64, u64); 7] = [
    // 0 + 5 + 2 * 10. Each part takes three multiplications, whatever the turn is.
    (&[0, 1, 2], 5, DOUBLE, 25, 9),
    (&[0, 1, 2], 5, SINGLE, 25, 9),
    (&[7], u64::MAX, DOUBLE, 7, 3),
    (
        &[3, 1, 4, 1, 5, 9, 2, 6, 5],
        u64::MAX,
        DOUBLE,
        11_529_215_046_068_469_762,
        27,
    ),
    (NINE_PARTS, u64::MAX, DOUBLE, 13_192_556_921_555_807_337, 27),
    (
        NINE_PARTS,
        1_000_000_000_000_000_000,
        DOUBLE,
        6_211_219_093_419_129_877,
        27,
    ),
    (
        &[21, 42, 63, 84, 105, 126, 147, 168, 189],
        u64::MAX,
        BYTE,
        105,
        27,
    ),
];

/// The number of the recurrence at the turn, and how many multiplications it takes; None where the parts are too
/// many, or the first isn't below 2^w.
fn at_turn(parts: &[u64], t: u64, w: Width) -> Option<(u64, u64)> {
    let first = *parts.first()?;
    if parts.len() > 9 || trunc(first, w) != first {
        return None;
    }
    let mut steps = Steps::new(());
    let value = eval_rec(parts, t, w, &mut steps);
    Some((value, steps.count()))
}

#[test]
fn parts_at_turns(rt: HostRuntime) {
    for (parts, t, w, number, multiplications) in AT_TURNS {
        assert_eq!(rt; at_turn(parts, t, w), Some((number, multiplications)));
    }
}
