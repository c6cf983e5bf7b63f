//! Kinds of minima and maxima.

ghost use Rattle.std.specs.Prelude.{◌≡◌, ◌-◌, ◌<◌, ◌^◌};
ghost use Rattle.scev_forms.specs.Minima as forms;
ghost use Rattle.scev_minima.specs.Kinds.{kind_of};

use scev_base::{Width, signed, trunc};
use scev_tree::Kind;

/// A minimum or a maximum of numbers of one width, read as signed or as unsigned.
#[derive(Clone, Copy, Debug, PartialEq, Eq)]
pub enum MinKind {
    /// The greatest, read as signed.
    Smax,
    /// The greatest, read as unsigned.
    Umax,
    /// The least, read as signed.
    Smin,
    /// The least, read as unsigned.
    Umin,
}

impl MinKind {
    /// The kind of its atoms.
    pub fn kind(self) -> Kind
        ensures { result ≡ kind_of self }
    {
        match self {
            MinKind::Smax => Kind::Smax,
            MinKind::Umax => Kind::Umax,
            MinKind::Smin => Kind::Smin,
            MinKind::Umin => Kind::Umin,
        }
    }

    /// The one of two numbers of w bits that it chooses.
    pub(crate) fn chosen(self, w: Width, a: u64, b: u64) -> u64
        requires left { a < 2 ^ w.bits }
        requires right { b < 2 ^ w.bits }
        ensures { result ≡ forms.chosen (kind_of self) w.bits a b }
    {
        match self {
            MinKind::Smax => { if signed(a, w) < signed(b, w) { b } else { a } }
            MinKind::Umax => a.max(b),
            MinKind::Smin => { if signed(b, w) < signed(a, w) { b } else { a } }
            MinKind::Umin => a.min(b),
        }
    }

    /// The number of w bits that it never chooses, but of two of them.
    pub(crate) fn neutral(self, w: Width) -> u64
        ensures { result ≡ forms.neutral (kind_of self) w.bits }
    {
        match self {
            MinKind::Smax => least_signed(w),
            MinKind::Umax => 0,
            MinKind::Smin => greatest_signed(w),
            MinKind::Umin => greatest(w),
        }
    }

    /// The number of w bits that it always chooses.
    pub(crate) fn absorbing(self, w: Width) -> u64
        ensures { result ≡ forms.absorbing (kind_of self) w.bits }
    {
        match self {
            MinKind::Smax => greatest_signed(w),
            MinKind::Umax => greatest(w),
            MinKind::Smin => least_signed(w),
            MinKind::Umin => 0,
        }
    }
}

/// The greatest number of w bits, 2^w - 1.
fn greatest(w: Width) -> u64
    ensures { result ≡ 2 ^ w.bits - 1 }
{
    trunc(u64::MAX, w)
}

/// The least number of w bits read as signed, as it is read as unsigned: 2^(w-1).
fn least_signed(w: Width) -> u64
    ensures { result ≡ 2 ^ (w.bits - 1) }
{
    1 << (w.get() - 1)
}

/// The greatest number of w bits read as signed: 2^(w-1) - 1.
fn greatest_signed(w: Width) -> u64
    ensures { result ≡ 2 ^ (w.bits - 1) - 1 }
{
    least_signed(w) - 1
}
