//! The texts of expressions.

ghost use Rattle.std.specs.Prelude.{◌≡◌, ◌∷◌, ◌++◌, map, codes, length, ◌<◌, IfOk, OnOk};
ghost use Rattle.scev_tree.specs.Tree.{parts_of};
ghost use Rattle.scev_arena.specs.Meaning.{meanings, tree_of, atom_of, factors_at, terms_at};
ghost use Rattle.scev_arena.specs.Standing.{IsTreeAt, IsAtomAt, AreTrees, AreAtoms, AreOverAtoms};
ghost use Rattle.scev_walk.specs.Reading.{IsSomeAtomAt, AreBelow, AreOverBelow};
ghost use Rattle.ir_printer.specs.Shown.{shown};
ghost use Rattle.scev_text.specs.Text as text;

use crate::small::{push_constant, push_header, push_integer_type};
use ir_printer::{Names, push_value_name};
use poly_terms::Term;
use scev_arena::Arena;
use scev_base::{BlockId, ExprId, LoopId, Width};
use scev_tree::Kind;
use scev_walk::{atom_at, tree_at, width};
use std::alloc::{AllocError, Global};

/// The text of an expression. A number is written by its signed reading, `true` or `false` at one bit; a register by
/// the name that the printer shows; a sum as `(a + b)` and a product as `(-1 * x * y)`, without a coefficient of 1;
/// conversions as `(zext i32 x to i64)`, quotients as `(x /u y)`, minima as `(x umin y)`, sequential ones with
/// `umin_seq`; and a recurrence as `{a,+,b}<%header>`, its loop's header at the loop's number in the list.
///
/// The names are numbered once for a function (`Names::of`). `AllocError` comes only where no memory is found.
pub fn expr_text(
    alloc: Global,
    arena: &Arena,
    names: &Names<'_>,
    headers: &[BlockId],
    id: ExprId,
) -> Result<Vec<u8>, AllocError>
    requires { IsTreeAt arena.now id }
    ensures { IfOk result (λ out.
        out.items ≡ text.tree_text (shown names.now) headers.now (tree_of arena.now id)) }
{
    let mut out = Vec::new(alloc);
    push_expr(&mut out, arena, names, headers, id)?;
    Ok(out)
}

/// Appends the text of an expression, as `expr_text` gives it.
#[cycle(spelling)]
pub fn push_expr(
    out: &mut Vec<u8>,
    arena: &Arena,
    names: &Names<'_>,
    headers: &[BlockId],
    id: ExprId,
) -> Result<(), AllocError>
    requires { IsTreeAt arena.now id }
    ensures { OnOk result (out.new.items
        ≡ out.old.items ++ text.tree_text (shown names.now) headers.now (tree_of arena.now id)) }
{
    let (w, terms) = tree_at(arena, id);
    let Some((first, others)) = terms.split_first() else {
        return push_constant(out, w, 0);
    };
    if others.is_empty() {
        return push_monomial(out, arena, names, headers, w, id.0, first);
    }
    out.push(b'(')?;
    push_monomial(out, arena, names, headers, w, id.0, first)?;
    push_further_monomials(out, arena, names, headers, w, id.0, others)?;
    out.push(b')')?;
    Ok(())
}

/// Appends further monomials of a sum, each behind ` + `. Their factors stand below a place.
#[cycle(spelling)]
fn push_further_monomials(
    out: &mut Vec<u8>,
    arena: &Arena,
    names: &Names<'_>,
    headers: &[BlockId],
    w: Width,
    below: u64,
    terms: &[Term],
) -> Result<(), AllocError>
    requires over { AreOverAtoms arena.now w.bits terms.now }
    requires below { AreOverBelow below terms.now }
    ensures { OnOk result (out.new.items ≡ out.old.items ++ text.each_behind (codes " + ")
        (text.terms_texts (shown names.now) headers.now w.bits (terms_at (meanings arena.now) terms.now))) }
{
    for term in terms {
        out.extend_from_slice(b" + ")?;
        push_monomial(out, arena, names, headers, w, below, term)?;
    }
    Ok(())
}

/// Appends a monomial: a constant, one factor, or the product of its coefficient and its factors, which stand below a
/// place.
#[cycle(spelling)]
fn push_monomial(
    out: &mut Vec<u8>,
    arena: &Arena,
    names: &Names<'_>,
    headers: &[BlockId],
    w: Width,
    below: u64,
    term: &Term,
) -> Result<(), AllocError>
    requires atoms { AreAtoms arena.now w.bits term.now.ids }
    requires below { AreBelow below term.now.ids }
    ensures { OnOk result (out.new.items ≡ out.old.items ++ text.monomial_text w.bits term.now.coefficient
        (text.factors_texts (shown names.now) headers.now (factors_at (meanings arena.now) term.now.ids))) }
{
    let ids = term.ids.as_slice();
    let Some((first, others)) = ids.split_first() else {
        return push_constant(out, w, term.coefficient);
    };
    if term.coefficient == 1 {
        return push_factors(out, arena, names, headers, w, below, *first, others);
    }
    out.push(b'(')?;
    push_constant(out, w, term.coefficient)?;
    push_further_factors(out, arena, names, headers, w, below, ids)?;
    out.push(b')')?;
    Ok(())
}

/// Appends a factor as it is where there are no others, and else their product. They stand below a place.
#[cycle(spelling)]
fn push_factors(
    out: &mut Vec<u8>,
    arena: &Arena,
    names: &Names<'_>,
    headers: &[BlockId],
    w: Width,
    below: u64,
    first: ExprId,
    others: &[ExprId],
) -> Result<(), AllocError>
    requires first { IsAtomAt arena.now w.bits first }
    requires first_below { first.0 < below }
    requires atoms { AreAtoms arena.now w.bits others.now }
    requires below { AreBelow below others.now }
    ensures { OnOk result (out.new.items ≡ out.old.items ++ text.enclosed (codes " * ")
        (text.atom_text (shown names.now) headers.now (atom_of arena.now first)
        ∷ text.factors_texts (shown names.now) headers.now (factors_at (meanings arena.now) others.now))) }
{
    if others.is_empty() {
        return push_atom(out, arena, names, headers, first);
    }
    out.push(b'(')?;
    push_atom(out, arena, names, headers, first)?;
    push_further_factors(out, arena, names, headers, w, below, others)?;
    out.push(b')')?;
    Ok(())
}

/// Appends further factors of a product, each behind ` * `. They stand below a place.
#[cycle(spelling)]
fn push_further_factors(
    out: &mut Vec<u8>,
    arena: &Arena,
    names: &Names<'_>,
    headers: &[BlockId],
    w: Width,
    below: u64,
    ids: &[ExprId],
) -> Result<(), AllocError>
    requires atoms { AreAtoms arena.now w.bits ids.now }
    requires below { AreBelow below ids.now }
    ensures { OnOk result (out.new.items ≡ out.old.items ++ text.each_behind (codes " * ")
        (text.factors_texts (shown names.now) headers.now (factors_at (meanings arena.now) ids.now))) }
{
    for id in ids {
        out.extend_from_slice(b" * ")?;
        push_atom(out, arena, names, headers, *id)?;
    }
    Ok(())
}

/// Appends an atom.
#[cycle(spelling)]
fn push_atom(
    out: &mut Vec<u8>,
    arena: &Arena,
    names: &Names<'_>,
    headers: &[BlockId],
    id: ExprId,
) -> Result<(), AllocError>
    requires { IsSomeAtomAt arena.now id }
    ensures { OnOk result (out.new.items
        ≡ out.old.items ++ text.atom_text (shown names.now) headers.now (atom_of arena.now id)) }
{
    let (kind, w, parts) = atom_at(arena, id);
    match kind {
        Kind::Trunc => push_cast(out, arena, names, headers, b"trunc ", w, id.0, parts),
        Kind::Zext => push_cast(out, arena, names, headers, b"zext ", w, id.0, parts),
        Kind::Sext => push_cast(out, arena, names, headers, b"sext ", w, id.0, parts),
        Kind::Udiv => push_enclosed(out, arena, names, headers, b" /u ", id.0, parts),
        Kind::Smax => push_enclosed(out, arena, names, headers, b" smax ", id.0, parts),
        Kind::Umax => push_enclosed(out, arena, names, headers, b" umax ", id.0, parts),
        Kind::Smin => push_enclosed(out, arena, names, headers, b" smin ", id.0, parts),
        Kind::Umin => push_enclosed(out, arena, names, headers, b" umin ", id.0, parts),
        Kind::Seq => push_enclosed(out, arena, names, headers, b" umin_seq ", id.0, parts),
        Kind::Rec(l) => push_recurrence(out, arena, names, headers, l, id.0, parts),
        Kind::Leaf(register, _) => push_value_name(out, names, register),
    }
}

/// Appends a recurrence of a loop, with its parts and the loop's header. The parts stand below a place.
#[cycle(spelling)]
fn push_recurrence(
    out: &mut Vec<u8>,
    arena: &Arena,
    names: &Names<'_>,
    headers: &[BlockId],
    l: LoopId,
    below: u64,
    parts: &[ExprId],
) -> Result<(), AllocError>
    requires trees { AreTrees arena.now parts.now }
    requires below { AreBelow below parts.now }
    ensures { OnOk result (out.new.items ≡ out.old.items ++ text.recurrence_text (shown names.now) headers.now l
        (text.parts_texts (shown names.now) headers.now (parts_of (map (tree_of arena.now) parts.now)))) }
{
    out.push(b'{')?;
    push_parts(out, arena, names, headers, b",+,", below, parts)?;
    out.extend_from_slice(b"}<")?;
    push_header(out, names, headers, l)?;
    out.extend_from_slice(b">")
}

/// Appends a conversion of its only part, with its word and both types. The part stands below a place.
#[cycle(spelling)]
fn push_cast(
    out: &mut Vec<u8>,
    arena: &Arena,
    names: &Names<'_>,
    headers: &[BlockId],
    word: &[u8],
    w: Width,
    below: u64,
    parts: &[ExprId],
) -> Result<(), AllocError>
    requires trees { AreTrees arena.now parts.now }
    requires below { AreBelow below parts.now }
    requires one { length parts.now ≡ 1 }
    ensures { OnOk result (out.new.items ≡ out.old.items ++ text.cast_text word.now
        (text.part_width (parts_of (map (tree_of arena.now) parts.now))) w.bits
        (text.parts_texts (shown names.now) headers.now (parts_of (map (tree_of arena.now) parts.now)))) }
{
    let only = parts[0];
    out.push(b'(')?;
    out.extend_from_slice(word)?;
    push_integer_type(out, width(arena, only))?;
    out.push(b' ')?;
    push_expr(out, arena, names, headers, only)?;
    out.extend_from_slice(b" to ")?;
    push_integer_type(out, w)?;
    out.push(b')')?;
    Ok(())
}

/// Appends two or more parts in parentheses, with a separator between them. They stand below a place.
#[cycle(spelling)]
fn push_enclosed(
    out: &mut Vec<u8>,
    arena: &Arena,
    names: &Names<'_>,
    headers: &[BlockId],
    between: &[u8],
    below: u64,
    parts: &[ExprId],
) -> Result<(), AllocError>
    requires trees { AreTrees arena.now parts.now }
    requires below { AreBelow below parts.now }
    requires several { 1 < length parts.now }
    ensures { OnOk result (out.new.items ≡ out.old.items ++ text.enclosed between.now
        (text.parts_texts (shown names.now) headers.now (parts_of (map (tree_of arena.now) parts.now)))) }
{
    out.push(b'(')?;
    push_parts(out, arena, names, headers, between, below, parts)?;
    out.push(b')')?;
    Ok(())
}

/// Appends parts, with a separator between them. They stand below a place.
#[cycle(spelling)]
fn push_parts(
    out: &mut Vec<u8>,
    arena: &Arena,
    names: &Names<'_>,
    headers: &[BlockId],
    between: &[u8],
    below: u64,
    parts: &[ExprId],
) -> Result<(), AllocError>
    requires trees { AreTrees arena.now parts.now }
    requires below { AreBelow below parts.now }
    ensures { OnOk result (out.new.items ≡ out.old.items ++ text.listed between.now
        (text.parts_texts (shown names.now) headers.now (parts_of (map (tree_of arena.now) parts.now)))) }
{
    let Some((first, others)) = parts.split_first() else {
        return Ok(());
    };
    push_expr(out, arena, names, headers, *first)?;
    push_further_parts(out, arena, names, headers, between, below, others)
}

/// Appends further parts, each behind a separator. They stand below a place.
#[cycle(spelling)]
fn push_further_parts(
    out: &mut Vec<u8>,
    arena: &Arena,
    names: &Names<'_>,
    headers: &[BlockId],
    between: &[u8],
    below: u64,
    parts: &[ExprId],
) -> Result<(), AllocError>
    requires trees { AreTrees arena.now parts.now }
    requires below { AreBelow below parts.now }
    ensures { OnOk result (out.new.items ≡ out.old.items ++ text.each_behind between.now
        (text.parts_texts (shown names.now) headers.now (parts_of (map (tree_of arena.now) parts.now)))) }
{
    for id in parts {
        out.extend_from_slice(between)?;
        push_expr(out, arena, names, headers, *id)?;
    }
    Ok(())
}
