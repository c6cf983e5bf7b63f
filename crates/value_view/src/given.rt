//! Operations that give expressions.

ghost use Rattle.std.specs.Prelude.{◌≡◌};
ghost use Rattle.value_view.specs.Givens.{pair_of, given_pair, given_cast, given_call, given_by, minimum_of, source_of};

use crate::source::Source;
use ir_model::{BinOp, CastOp, IrType, MinMax, Op, Operand, TypedOperand};
use scev_base::Width;

/// An operation on two operands.
#[derive(Clone, Copy, Debug, PartialEq, Eq)]
pub enum Pair {
    /// `add`, or `or disjoint`.
    Sum,
    /// `sub`.
    Difference,
    /// `mul`.
    Product,
    /// `shl`.
    ShiftedUp,
    /// `lshr`.
    ShiftedDown,
    /// `udiv`.
    Quotient,
    /// `xor`.
    Differing,
    /// `llvm.smax` and its kin.
    Smax,
    Umax,
    Smin,
    Umin,
}

/// What gives a value.
#[derive(Clone, Copy, Debug, PartialEq, Eq)]
pub enum Given {
    /// Nothing of which an expression is formed.
    Opaque,
    /// An operation on two operands of its width.
    Pair(Pair, Source, Source),
    /// A conversion of an operand of so many bits.
    Cast(CastOp, u32, Source),
    /// A phi in the header of a loop: the one operand of all edges from outside, and that of all back edges.
    Header(Source, Source),
}

impl Pair {
    /// The operation of a `BinOp` that may be `disjoint`.
    fn of(op: BinOp, disjoint: bool) -> Option<Pair>
        ensures { result ≡ pair_of op disjoint }
    {
        match op {
            BinOp::Add => Some(Pair::Sum),
            BinOp::Sub => Some(Pair::Difference),
            BinOp::Mul => Some(Pair::Product),
            BinOp::Shl => Some(Pair::ShiftedUp),
            BinOp::Lshr => Some(Pair::ShiftedDown),
            BinOp::Udiv => Some(Pair::Quotient),
            BinOp::Xor => Some(Pair::Differing),
            BinOp::Or if disjoint => Some(Pair::Sum),
            _ => None,
        }
    }

    /// The operation of a minimum or maximum.
    fn of_minimum(m: MinMax) -> Pair
        ensures { result ≡ minimum_of m }
    {
        match m {
            MinMax::Smax => Pair::Smax,
            MinMax::Umax => Pair::Umax,
            MinMax::Smin => Pair::Smin,
            MinMax::Umin => Pair::Umin,
        }
    }
}

impl Given {
    /// What an operation other than a phi gives, at w bits.
    pub fn of(op: &Op, w: Width) -> Given
        ensures { result ≡ given_by w.bits op.now }
    {
        match op {
            Op::Binary {
                op,
                disjoint,
                left,
                right,
                ..
            } => Given::of_pair(Pair::of(*op, *disjoint), *left, *right, w),
            Op::Cast {
                op,
                from,
                value,
                ..
            } => Given::of_cast(*op, from, *value),
            Op::Call { callee, args, .. } => {
                Given::of_call(MinMax::named(callee.as_slice()), args.as_slice(), w)
            }
            _ => Given::Opaque,
        }
    }

    /// What an operation on two operands gives.
    fn of_pair(pair: Option<Pair>, left: Operand, right: Operand, w: Width) -> Given
        ensures { result ≡ given_pair pair (source_of w.bits left) (source_of w.bits right) }
    {
        match (pair, Source::of(left, w), Source::of(right, w)) {
            (Some(pair), Some(left), Some(right)) => Given::Pair(pair, left, right),
            _ => Given::Opaque,
        }
    }

    /// What a conversion gives.
    fn of_cast(op: CastOp, from: &IrType, value: Operand) -> Given
        ensures { result ≡ given_cast op from.now value }
    {
        let IrType::Int(bits) = from else {
            return Given::Opaque;
        };
        let Some(w) = Width::new(*bits) else {
            return Given::Opaque;
        };
        match Source::of(value, w) {
            Some(source) => Given::Cast(op, *bits, source),
            None => Given::Opaque,
        }
    }

    /// What a call of this minimum or maximum gives.
    fn of_call(callee: Option<MinMax>, args: &[TypedOperand], w: Width) -> Given
        ensures { result ≡ given_call callee w.bits args.now }
    {
        match (callee, args) {
            (Some(m), [left, right]) => {
                Given::of_pair(Some(Pair::of_minimum(m)), left.value, right.value, w)
            }
            _ => Given::Opaque,
        }
    }
}
