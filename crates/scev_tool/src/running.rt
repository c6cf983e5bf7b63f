//! The one call.

ghost use Rattle.std.specs.Prelude.{◌≡◌, ◌≤◌, ◌<◌, ◌⊎◌, ℕ, List, length, Some};
ghost use Rattle.ir_model.specs.declared.item.Module.{Module};
ghost use Rattle.ir_model.specs.declared.rule.Rule.{Rule};
ghost use Rattle.ir_model.specs.declared.rule.Place.{Place};
ghost use Rattle.ir_rules.specs.Accepted.{IsAcceptedModule, IsFault};
ghost use Rattle.ir_grammar.specs.Spelled.{Spells, SpellsNone, IsNotInGrammar, IsUnsupported};
ghost use Rattle.scev_outside.specs.Bytes.{Gave};
ghost use Rattle.scev_outside.specs.Faults.{Rose};
ghost use Rattle.scev_tool.specs.Message.{IsLine, AddsUnlessFaulty};
ghost use Rattle.scev_tool.specs.Answer.{IsAnswer, input_limit};
ghost use Rattle.eval_request.specs.Asked.{Asked};
ghost use Rattle.ir_eval.specs.Outcome.{HasNoFunction, HasBadArgs};
ghost use Rattle.scev_words.specs.Modes.{Mode, Eval, AskFor};
ghost use Rattle.scev_tool.specs.Mode.{HasAsked};
ghost use Rattle.scev_tool.specs.Status.{LeavesOutput, Refuses};

use crate::answer::{answer, plain};
use crate::message::write_line;
use crate::status::Status;
use scev_outside::{Sink, Source};
use scev_words::{Word, mode_of};
use std::alloc::Global;

/// Does what the words ask for: it reads the source to its end, and writes a text about the module that its bytes spell
/// to `out`. `words` are the words after the program's name; the status says how the call ended.
///
/// With the word `print` the text is the printed module; with `report` the report on the loops of its functions, in
/// which each recurrence is true of its phi in every run; with `eval` three lines about a run of a function with the
/// number 0 chosen in each step: how it ended, how many steps it made, and how many calls. `eval` has the options
/// `--function`, by its name, `--args`, the arguments with commas between them, and `--steps`, the most steps,
/// 1,000,000 where it is left out.
///
/// A module that breaks a rule of well-formedness is refused at the first one, with its first place. The line of a
/// status goes to `err`, and a fault of `err` changes no status.
///
/// A source or a sink that doesn't tell its content leaves the clauses on content open. Want of memory is the one free
/// answer; it never comes once the first byte was written.
pub fn run<S: Source, K: Sink, E: Sink>(
    alloc: Global,
    words: &[Word],
    source: &mut S,
    out: &mut K,
    err: &mut E,
) -> Status
    // When each status comes, and what holds then of the input and the output.
    ensures answer { IsAnswer (record {
      words = words.now;
      left_old = S.left source.old;
      left_new = S.left source.new;
      taken_old = K.taken out.old;
      taken_new = K.taken out.new;
      reads_old = S.faults source.old;
      reads_new = S.faults source.new;
      writes_old = K.faults out.old;
      writes_new = K.faults out.new;
    }) result }

    // What stays as it was, and where the source stands else.
    ensures nothing_read { result ≡ Status.Usage → source.new ≡ source.old }
    ensures output { LeavesOutput result → out.new ≡ out.old }
    ensures stands { (read : List ℕ) × Gave (S.left source.old) read (S.left source.new) }

    // A module within the limit that breaks no rule and has what is asked for is answered, unless memory runs out or an
    // object's count of faults rises; one that breaks a rule is refused at the first one, with its first place.
    ensures complete { (mode : Mode) (bytes : List ℕ) (m : Module) → AskFor mode words.now →
        S.left source.old ≡ Some bytes → length bytes ≤ input_limit → Spells bytes m → IsAcceptedModule m →
        HasAsked mode m → (Rose (S.faults source.old) (S.faults source.new) → ⊥) →
        (Rose (K.faults out.old) (K.faults out.new) → ⊥) →
        (result ≡ Status.Done) ⊎ (result ≡ Status.OutOfMemory) }

    ensures rules { (mode : Mode) (bytes : List ℕ) (m : Module) (rule : Rule) (number : ℕ) (place : Place) →
        AskFor mode words.now → S.left source.old ≡ Some bytes → length bytes ≤ input_limit → Spells bytes m →
        IsFault m rule number place → (Rose (S.faults source.old) (S.faults source.new) → ⊥) →
        (result ≡ Status.Ill rule (record { 0 = number }) place) ⊎ (result ≡ Status.OutOfMemory) }

    // A run of a function that the module doesn't have, and with arguments that don't fit, is refused.
    ensures no_function { (asked : Asked) (bytes : List ℕ) (m : Module) → AskFor (Eval asked) words.now →
        S.left source.old ≡ Some bytes → length bytes ≤ input_limit → Spells bytes m → IsAcceptedModule m →
        HasNoFunction m asked → (Rose (S.faults source.old) (S.faults source.new) → ⊥) →
        (result ≡ Status.NoFunction) ⊎ (result ≡ Status.OutOfMemory) }
    ensures bad_args { (asked : Asked) (bytes : List ℕ) (m : Module) → AskFor (Eval asked) words.now →
        S.left source.old ≡ Some bytes → length bytes ≤ input_limit → Spells bytes m → IsAcceptedModule m →
        HasBadArgs m asked → (Rose (S.faults source.old) (S.faults source.new) → ⊥) →
        (result ≡ Status.BadArgs) ⊎ (result ≡ Status.OutOfMemory) }

    // What spells none within the limit is refused, at its place and under its name, on the same conditions; and what
    // is longer.
    ensures refuses { (mode : Mode) (bytes : List ℕ) → AskFor mode words.now → S.left source.old ≡ Some bytes →
        length bytes ≤ input_limit → SpellsNone bytes →
        (Rose (S.faults source.old) (S.faults source.new) → ⊥) → Refuses result ⊎ (result ≡ Status.OutOfMemory) }
    ensures places { (mode : Mode) (bytes : List ℕ) (at : ℕ) → AskFor mode words.now →
        S.left source.old ≡ Some bytes → length bytes ≤ input_limit → IsNotInGrammar bytes at →
        (Rose (S.faults source.old) (S.faults source.new) → ⊥) →
        (result ≡ Status.NotInGrammar at) ⊎ (result ≡ Status.OutOfMemory) }
    ensures names { (mode : Mode) (bytes : List ℕ) (word at : ℕ) → AskFor mode words.now →
        S.left source.old ≡ Some bytes → length bytes ≤ input_limit → IsUnsupported bytes word at →
        (Rose (S.faults source.old) (S.faults source.new) → ⊥) →
        (result ≡ Status.Unsupported word at) ⊎ (result ≡ Status.OutOfMemory) }
    ensures limits { (mode : Mode) (bytes : List ℕ) → AskFor mode words.now → S.left source.old ≡ Some bytes →
        input_limit < length bytes → (Rose (S.faults source.old) (S.faults source.new) → ⊥) →
        (result ≡ Status.TooLong) ⊎ (result ≡ Status.OutOfMemory) }

    // The status's line on `err`, and the counts of faults, which never fall.
    ensures line { (text : List ℕ) × IsLine words.now (S.left source.old) result text
        × AddsUnlessFaulty (E.taken err.old) text (E.taken err.new) (E.faults err.old) (E.faults err.new) }
    ensures reads { S.faults source.old ≤ S.faults source.new }
    ensures writes { K.faults out.old ≤ K.faults out.new }
    ensures messages { E.faults err.old ≤ E.faults err.new }
{
    let answered = match mode_of(words) {
        Some(mode) => answer(alloc, words, mode, source, out),
        None => plain(alloc, Status::Usage),
    };
    let _ = write_line(err, answered.status, &answered.line);
    answered.status
}
