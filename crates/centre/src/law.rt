//! What the definitions say together.
ghost use Rattle.std.specs.Prelude.{◌≡◌, ◌∷◌, ℕ, List, Option, Result, codes};
ghost use Rattle.mseed_header.specs.Octets.{AreOctets};
ghost use Rattle.centre.specs.Answers.{IsAnswer, HasOpening};
ghost use Rattle.command_words.specs.Commands.{Command, command_of};
ghost use Rattle.http_digest.specs.declared.secret.Secret.{Secret};
ghost use Rattle.streams.specs.View.{StreamView};
ghost use Rattle.centre_select.specs.Table.{IsRun as IsRunOfSelect};
ghost use Rattle.centre.specs.Given.{Given, World};
ghost use Rattle.centre.specs.Table.{IsRun};
ghost use Rattle.centre.specs.declared.ending.Refusal.{Refusal};

use disk_model::Disk;

/// The words and what they make the program read determine one answer at most: no two causes hold at once, and none
/// have two bodies.
pub fn one_answer_at_most()
    ensures { (command : Option Command) (given : Given) (a b : Result (List ℕ) Refusal)
        → IsAnswer command given a → IsAnswer command given b → a ≡ b }
{}

/// And there is one: each command has an answer to each input of bytes, and by the law above no other; of `talk`, `serve` and
/// `coverage` where the file opens or has a fault, if the last has days to ask for, and of `fetch` where what it heard for the
/// window that it asks for leads to an end.
pub fn some_answer()
    ensures { (command : Option Command) (given : Given) → AreOctets given.input → HasOpening command given
        → (answer : Result (List ℕ) Refusal) × IsAnswer command given answer }
{}

/// The program of `select` alone says the same. For words that begin with `select`, what it may do over a source and a
/// sink, with this status and this text on the errors, is what [`crate::run`] may do over all that it can reach where
/// nothing but the source and the sink has changed; and what [`crate::run`] may do, that program may.
pub fn the_small_program_says_the_same<D: Disk>()
    ensures all { (secret : Secret) (behind : List (List ℕ)) (before after : World D) (old new : StreamView) (status : ℕ)
        → after ≡ record before { streams = after.streams }
        → IsRunOfSelect (command_of (codes "select" ∷ behind)) before.streams after.streams old new status
        → IsRun D.view secret (command_of (codes "select" ∷ behind)) before after old new status }
    ensures only { (secret : Secret) (behind : List (List ℕ)) (before after : World D) (old new : StreamView) (status : ℕ)
        → IsRun D.view secret (command_of (codes "select" ∷ behind)) before after old new status
        → IsRunOfSelect (command_of (codes "select" ∷ behind)) before.streams after.streams old new status }
{}
