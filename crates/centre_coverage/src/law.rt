//! What holds of the definitions, whatever the code does.
ghost use Rattle.std.specs.Prelude.{◌≡◌, ◌⊎◌, ℕ, ℤ, List, Result, Ok, Err};
ghost use Rattle.disk_model.specs.View.{WhereTold, file_of};
ghost use Rattle.streams.specs.Effects.{Grew};
ghost use Rattle.streams.specs.View.{StreamView};
ghost use Rattle.command_words.specs.Commands.{CoverageWords};
ghost use Rattle.centre_coverage.specs.Answers.{IsCoverageAnswer, OpensOrNot};
ghost use Rattle.centre_coverage.specs.Table.{CoverageRow};
ghost use Rattle.centre_coverage.specs.Words.{IsAsked, IsWordsAnswer, RefusesCoverageWords};
ghost use Rattle.centre_coverage.specs.declared.ending.CoverageRefusal.{CoverageRefusal};
ghost use Rattle.centre_coverage.specs.declared.ending.CoverageStop.TheVariants.{Refused};

use disk_model::Disk;

/// Words ask for days, or they are refused.
pub fn words_decide()
    ensures { (w : CoverageWords) → ((refusal : CoverageRefusal) × RefusesCoverageWords w refusal) ⊎ ((first : ℤ) × (days : ℕ) × IsAsked w first days) }
{}

/// The words and the bytes of a file have one answer at most.
pub fn one_coverage_answer()
    ensures { (w : CoverageWords) (file : List ℕ) (a b : Result (List ℕ) CoverageRefusal)
        → IsCoverageAnswer w file a → IsCoverageAnswer w file b → a ≡ b }
{}

/// Words that are refused have an answer, and words that ask for days have one where the file opens or has a fault.
pub fn some_coverage_answer()
    ensures words { (w : CoverageWords) (file : List ℕ) (answer : Result (List ℕ) CoverageRefusal) → IsWordsAnswer w answer
        → IsCoverageAnswer w file answer }
    ensures opened { (w : CoverageWords) (file : List ℕ) (first : ℤ) (days : ℕ) → IsAsked w first days → OpensOrNot file
        → (answer : Result (List ℕ) CoverageRefusal) × IsCoverageAnswer w file answer }
{}

/// Where the disk tells its bytes: where `coverage` is done, what it wrote is the report of the words and the file, and where it is
/// refused, this is their answer.
pub fn a_row_is_the_answer<D: Disk>()
    ensures done { (w : CoverageWords) (old new : StreamView) (before after : D) (done : Unit {0})
        → CoverageRow D.view w old new before after (Ok done)
        → WhereTold (D.view before) ((lines : List ℕ) × IsCoverageAnswer w (file_of (D.view before)) (Ok lines) × Grew old.written new.written lines) }
    ensures refused { (w : CoverageWords) (old new : StreamView) (before after : D) (refusal : CoverageRefusal)
        → CoverageRow D.view w old new before after (Err (Refused refusal))
        → WhereTold (D.view before) (IsCoverageAnswer w (file_of (D.view before)) (Err refusal)) }
{}
