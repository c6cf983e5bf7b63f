//! Which words are passed on.

ghost use Rattle.std.specs.Prelude.{◌≡◌, map, position, slice_get, MatchOption, Some, None};
ghost use Rattle.std.specs.Str.{bytes_eq};
ghost use Rattle.ir_text.specs.PassedOn.{opening_words, left_out_words, is_among};
ghost use Rattle.ir_parts.specs.WordsReading.{is_passed_text, word_says};

use crate::numbers::int_width_of;

/// The words that begin an item, an instruction, or the rest of a global.
const OPENING_WORDS: [&[u8]; 37] = [
    b"source_filename",
    b"target",
    b"attributes",
    b"declare",
    b"define",
    b"global",
    b"constant",
    b"add",
    b"sub",
    b"mul",
    b"shl",
    b"udiv",
    b"sdiv",
    b"lshr",
    b"ashr",
    b"urem",
    b"srem",
    b"and",
    b"xor",
    b"or",
    b"icmp",
    b"zext",
    b"sext",
    b"trunc",
    b"select",
    b"phi",
    b"freeze",
    b"alloca",
    b"load",
    b"store",
    b"tail",
    b"notail",
    b"call",
    b"br",
    b"switch",
    b"ret",
    b"unreachable",
];

/// The words of LLVM IR that are left out.
const LEFT_OUT_WORDS: [&[u8]; 54] = [
    b"half",
    b"bfloat",
    b"float",
    b"double",
    b"fp128",
    b"x86_fp80",
    b"ppc_fp128",
    b"fadd",
    b"fsub",
    b"fmul",
    b"fdiv",
    b"frem",
    b"fneg",
    b"fcmp",
    b"fptrunc",
    b"fpext",
    b"fptoui",
    b"fptosi",
    b"uitofp",
    b"sitofp",
    b"ptrtoint",
    b"inttoptr",
    b"bitcast",
    b"addrspacecast",
    b"addrspace",
    b"extractvalue",
    b"insertvalue",
    b"extractelement",
    b"insertelement",
    b"shufflevector",
    b"atomic",
    b"volatile",
    b"atomicrmw",
    b"cmpxchg",
    b"fence",
    b"invoke",
    b"resume",
    b"landingpad",
    b"cleanupret",
    b"catchret",
    b"catchswitch",
    b"personality",
    b"callbr",
    b"indirectbr",
    b"musttail",
    b"va_arg",
    b"asm",
    b"module",
    b"comdat",
    b"alias",
    b"ifunc",
    b"type",
    b"blockaddress",
    b"getelementptr",
];

/// The place of a word among those of LLVM IR that are left out, from 0; None of every other word.
pub fn left_out_place(text: &[u8]) -> Option<usize>
    ensures { result ≡ position (λ each. bytes_eq each text.now) left_out_words }
{
    place_among(&LEFT_OUT_WORDS, text)
}

/// The word at a place among those of LLVM IR that are left out, from 0; None behind the last.
pub fn left_out_word(place: usize) -> Option<&'static [u8]>
    ensures { MatchOption result (slice_get left_out_words place ≡ None)
        (λ word. slice_get left_out_words place ≡ Some word.now) }
{
    text_at(&LEFT_OUT_WORDS, place)
}

/// The text at a place of these, from 0; None behind the last.
fn text_at(texts: &[&'static [u8]], place: usize) -> Option<&'static [u8]>
    ensures { MatchOption result (slice_get (map (λ each. each.now) texts.now) place ≡ None)
        (λ text. slice_get (map (λ each. each.now) texts.now) place ≡ Some text.now) }
{
    texts.get(place).copied()
}

/// The first place of a text among these, from 0; None where it is none of them.
pub fn place_among(texts: &[&[u8]], text: &[u8]) -> Option<usize>
    ensures { result ≡ position (λ each. bytes_eq each text.now) (map (λ each. each.now) texts.now) }
{
    texts.iter().position(|each| *each == text)
}

/// Whether a word is passed on: it is no type, isn't left out, and begins nothing else.
#[tactic(auto, unfolding(crate::specs::WordsReading::is_passed_text))]
pub(crate) fn is_passed_text(text: &[u8]) -> bool
    ensures { result ≡ is_passed_text text.now }
{
    !is_opening(text)
        && !is_left_out(text)
        && text != b"ptr".as_slice()
        && text != b"void".as_slice()
        && int_width_of(text).is_none()
}

/// Whether a word is `external` or `extern_weak`, and whether a numeral may stand behind it.
pub(crate) fn word_says(text: &[u8]) -> (bool, bool)
    ensures { result ≡ word_says text.now }
{
    (
        is_among(&[b"external", b"extern_weak"], text),
        is_among(&[b"align", b"cc"], text),
    )
}

/// Whether the text begins an item, an instruction, or the rest of a global.
fn is_opening(text: &[u8]) -> bool
    ensures { result ≡ is_among opening_words text.now }
{
    is_among(&OPENING_WORDS, text)
}

/// Whether the text is a word of LLVM IR that is left out.
fn is_left_out(text: &[u8]) -> bool
    ensures { result ≡ is_among left_out_words text.now }
{
    is_among(&LEFT_OUT_WORDS, text)
}

fn is_among(texts: &[&[u8]], text: &[u8]) -> bool
    ensures { result ≡ is_among (map (λ each. each.now) texts.now) text.now }
{
    texts.iter().any(|each| *each == text)
}
