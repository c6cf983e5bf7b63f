//! Flags of operations.

ghost use Rattle.std.specs.Prelude.{◌≡◌, ◌≤◌, length, Ok, false};
ghost use Rattle.std.specs.Str.{bytes_eq};
ghost use Rattle.ir_parts.specs.Reading.{left_from};
ghost use Rattle.ir_body.specs.Flags.{flag_at, dropped_at, pair_at, wraps_at, gep_flags_at, exact_at, disjoint_at, flags_at, cast_flags_at};

use ir_lex::Tokens;
use ir_model::{BinOp, CastOp};
use ir_parts::starts_keyword;

/// The flags of an operation of two operands.
#[derive(Clone, Copy, Debug, PartialEq, Eq)]
pub(crate) struct Flags {
    pub nuw: bool,
    pub nsw: bool,
    pub exact: bool,
    pub disjoint: bool,
}

const NONE: Flags = Flags {
    nuw: false,
    nsw: false,
    exact: false,
    disjoint: false,
};

/// Whether the word stands there, and the place behind it.
#[tactic(auto, unfolding(crate::specs::Flags::flag_at))]
pub fn read_flag(tokens: &Tokens<'_>, from: usize, text: &[u8]) -> (bool, usize)
    requires { from ≤ length tokens.now.tokens }
    ensures value { flag_at text.now (left_from tokens.now from) ≡ Ok (result.0, left_from tokens.now result.1) }
    ensures forth { (from ≤ result.1) × (result.1 ≤ length tokens.now.tokens) }
{
    if starts_keyword(tokens, from, text) {
        (true, from + 1)
    } else {
        (false, from)
    }
}

/// The place behind the word, where it stands there.
#[tactic(auto, unfolding(crate::specs::Flags::dropped_at))]
pub(crate) fn behind_dropped(tokens: &Tokens<'_>, from: usize, text: &[u8]) -> usize
    requires { from ≤ length tokens.now.tokens }
    ensures value { dropped_at text.now (left_from tokens.now from) ≡ Ok (tt, left_from tokens.now result) }
    ensures forth { (from ≤ result) × (result ≤ length tokens.now.tokens) }
{
    let (_, at) = read_flag(tokens, from, text);
    at
}

/// The flags that stand behind the opcode.
#[tactic(auto, unfolding(crate::specs::Flags::flags_at))]
pub(crate) fn read_flags(tokens: &Tokens<'_>, from: usize, op: BinOp) -> (Flags, usize)
    requires { from ≤ length tokens.now.tokens }
    ensures value { flags_at op (left_from tokens.now from) ≡ Ok (result.0, left_from tokens.now result.1) }
    ensures forth { (from ≤ result.1) × (result.1 ≤ length tokens.now.tokens) }
{
    match op {
        BinOp::Add | BinOp::Sub | BinOp::Mul | BinOp::Shl => wraps(tokens, from),
        BinOp::Udiv | BinOp::Sdiv | BinOp::Lshr | BinOp::Ashr => exact(tokens, from),
        BinOp::Or => disjoint(tokens, from),
        BinOp::Urem | BinOp::Srem | BinOp::And | BinOp::Xor => (NONE, from),
    }
}

/// Two words, each at most once, in any order: which of them stand there.
#[tactic(auto, unfolding(crate::specs::Flags::pair_at))]
fn pair(tokens: &Tokens<'_>, from: usize, one: &[u8], other: &[u8]) -> ((bool, bool), usize)
    requires from { from ≤ length tokens.now.tokens }
    requires apart { bytes_eq one.now other.now ≡ false }
    ensures value { pair_at one.now other.now (left_from tokens.now from)
        ≡ Ok (result.0, left_from tokens.now result.1) }
    ensures forth { (from ≤ result.1) × (result.1 ≤ length tokens.now.tokens) }
{
    if starts_keyword(tokens, from, one) {
        let (set, at) = read_flag(tokens, from + 1, other);
        return ((true, set), at);
    }
    if starts_keyword(tokens, from, other) {
        let (set, at) = read_flag(tokens, from + 1, one);
        return ((set, true), at);
    }
    ((false, false), from)
}

/// `nuw` and `nsw`.
#[tactic(auto, unfolding(crate::specs::Flags::wraps_at))]
fn wraps(tokens: &Tokens<'_>, from: usize) -> (Flags, usize)
    requires { from ≤ length tokens.now.tokens }
    ensures value { wraps_at (left_from tokens.now from) ≡ Ok (result.0, left_from tokens.now result.1) }
    ensures forth { (from ≤ result.1) × (result.1 ≤ length tokens.now.tokens) }
{
    let ((nuw, nsw), at) = pair(tokens, from, b"nuw", b"nsw");
    (Flags { nuw, nsw, ..NONE }, at)
}

/// The flags of `getelementptr`: whether `inbounds` is among them. `nuw` and `nusw` are dropped.
#[tactic(auto, unfolding(crate::specs::Flags::gep_flags_at))]
pub(crate) fn read_gep_flags(tokens: &Tokens<'_>, from: usize) -> (bool, usize)
    requires { from ≤ length tokens.now.tokens }
    ensures value { gep_flags_at (left_from tokens.now from) ≡ Ok (result.0, left_from tokens.now result.1) }
    ensures forth { (from ≤ result.1) × (result.1 ≤ length tokens.now.tokens) }
{
    if starts_keyword(tokens, from, b"inbounds") {
        let (_, at) = pair(tokens, from + 1, b"nuw", b"nusw");
        return (true, at);
    }
    if starts_keyword(tokens, from, b"nuw") {
        let (set, at) = pair(tokens, from + 1, b"inbounds", b"nusw");
        return (set.0, at);
    }
    if starts_keyword(tokens, from, b"nusw") {
        let (set, at) = pair(tokens, from + 1, b"inbounds", b"nuw");
        return (set.0, at);
    }
    (false, from)
}

#[tactic(auto, unfolding(crate::specs::Flags::exact_at))]
fn exact(tokens: &Tokens<'_>, from: usize) -> (Flags, usize)
    requires { from ≤ length tokens.now.tokens }
    ensures value { exact_at (left_from tokens.now from) ≡ Ok (result.0, left_from tokens.now result.1) }
    ensures forth { (from ≤ result.1) × (result.1 ≤ length tokens.now.tokens) }
{
    let (exact, at) = read_flag(tokens, from, b"exact");
    (Flags { exact, ..NONE }, at)
}

#[tactic(auto, unfolding(crate::specs::Flags::disjoint_at))]
fn disjoint(tokens: &Tokens<'_>, from: usize) -> (Flags, usize)
    requires { from ≤ length tokens.now.tokens }
    ensures value { disjoint_at (left_from tokens.now from) ≡ Ok (result.0, left_from tokens.now result.1) }
    ensures forth { (from ≤ result.1) × (result.1 ≤ length tokens.now.tokens) }
{
    let (disjoint, at) = read_flag(tokens, from, b"disjoint");
    (Flags { disjoint, ..NONE }, at)
}

/// Whether `nneg` stands behind the opcode of a conversion. The flags of `trunc` are dropped.
#[tactic(auto, unfolding(crate::specs::Flags::cast_flags_at))]
pub(crate) fn read_cast_flags(tokens: &Tokens<'_>, from: usize, op: CastOp) -> (bool, usize)
    requires { from ≤ length tokens.now.tokens }
    ensures value { cast_flags_at op (left_from tokens.now from) ≡ Ok (result.0, left_from tokens.now result.1) }
    ensures forth { (from ≤ result.1) × (result.1 ≤ length tokens.now.tokens) }
{
    match op {
        CastOp::Zext => read_flag(tokens, from, b"nneg"),
        CastOp::Sext => (false, from),
        CastOp::Trunc => {
            let at = behind_dropped(tokens, from, b"nuw");
            let at = behind_dropped(tokens, at, b"nsw");
            (false, at)
        }
    }
}
