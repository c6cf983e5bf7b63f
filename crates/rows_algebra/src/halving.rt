//! Binomials by halving the turn: another way to the same numbers, for comparison.

ghost use Rattle.std.specs.Prelude.{◌<◌, ◌≤◌, length};

use scev_base::{Width, trunc};

/// The binomial coefficient of `t` at `k`, modulo 2^w, by a row of Pascal's triangle.
pub(crate) fn binomial_by_halving(t: u64, k: usize, w: Width) -> u64
    requires { k ≤ 8 }
{
    let mut row = [0; 9];
    fill_row(&mut row, t);
    trunc(row[k], w)
}

/// Makes this the row of the turn modulo 2^64, as far as it reaches. The row of a turn is found from that of
/// half the turn, so there are as many doublings as the turn has binary digits.
fn fill_row(row: &mut [u64], t: u64)
    requires { 0 < length row.old }
{
    if t == 0 {
        row.fill(0);
        row[0] = 1;
        return;
    }
    fill_row(row, t / 2);
    double(row);
    if t % 2 == 1 {
        advance(row);
    }
}

/// Makes the row of a turn that of twice the turn. A coefficient of a sum of two turns is the sum of the
/// products of their coefficients whose places add up to its own (Vandermonde's identity). So each needs
/// those before it only, and the last one is replaced first.
fn double(row: &mut [u64]) {
    for k in (0..row.len()).rev() {
        row[k] = last_of_double(&row[..=k]);
    }
}

/// The coefficient of twice the row's turn at the last of the row's places.
fn last_of_double(row: &[u64]) -> u64
    requires { 0 < length row.now }
{
    let mut sum: u64 = 0;
    for (place, coefficient) in row.iter().enumerate() {
        sum = sum.wrapping_add(coefficient.wrapping_mul(row[row.len() - 1 - place]));
    }
    sum
}

/// Makes the row of a turn that of the next turn, by Pascal's rule.
fn advance(row: &mut [u64]) {
    for k in (1..row.len()).rev() {
        row[k] = row[k].wrapping_add(row[k - 1]);
    }
}
