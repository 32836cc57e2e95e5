//! What holds of the definitions, whatever the code does.
ghost use Rattle.std.specs.Prelude.{◌≡◌, ◌⊎◌, ℕ, List, Result, Ok, Err};
ghost use Rattle.streams.specs.Effects.{Grew};
ghost use Rattle.streams.specs.View.{StreamView};
ghost use Rattle.command_words.specs.Commands.{FetchWords};
ghost use Rattle.link_ports.specs.Ports.{PortView};
ghost use Rattle.split_fetch.specs.declared.heard.Heard.{Heard};
ghost use Rattle.split_fetch.specs.declared.window.Window.{Window};
ghost use Rattle.centre_fetch.specs.Answers.{IsFetchAnswer, IsHeardOut};
ghost use Rattle.centre_fetch.specs.Table.{FetchRow, IsGiven};
ghost use Rattle.centre_fetch.specs.Words.{IsAsked, IsWordsAnswer, RefusesFetchWords};
ghost use Rattle.centre_fetch.specs.declared.ending.FetchRefusal.{FetchRefusal};
ghost use Rattle.centre_fetch.specs.declared.ending.FetchStop.TheVariants.{Refused};

/// Words ask for a window, or they are refused.
pub fn words_decide()
    ensures { (w : FetchWords) → ((refusal : FetchRefusal) × RefusesFetchWords w refusal) ⊎ ((window : Window) × IsAsked w window) }
{}

/// The words and what was heard have one answer at most.
pub fn one_fetch_answer()
    ensures { (w : FetchWords) (heard : List Heard) (a b : Result (List ℕ) FetchRefusal)
        → IsFetchAnswer w heard a → IsFetchAnswer w heard b → a ≡ b }
{}

/// Words that are refused have an answer, and words with what leads to an end of asking have one.
pub fn some_fetch_answer()
    ensures words { (w : FetchWords) (heard : List Heard) (answer : Result (List ℕ) FetchRefusal) → IsWordsAnswer w answer
        → IsFetchAnswer w heard answer }
    ensures heard { (w : FetchWords) (heard : List Heard) → IsHeardOut w heard
        → (answer : Result (List ℕ) FetchRefusal) × IsFetchAnswer w heard answer }
{}

/// Where `fetch` is done, what it wrote is the body of the words and what was heard. Where it is refused, this is the answer to
/// the words and what was heard, if that can be told in one way only.
pub fn a_row_is_the_answer()
    ensures done { (w : FetchWords) (old new : StreamView) (before after : PortView) (done : Unit {0})
        → FetchRow w old new before after (Ok done)
        → (heard : List Heard) × (body : List ℕ) × IsGiven w before after heard × IsFetchAnswer w heard (Ok body)
        × Grew old.written new.written body }
    ensures refused { (w : FetchWords) (old new : StreamView) (before after : PortView) (refusal : FetchRefusal)
        → FetchRow w old new before after (Err (Refused refusal))
        → (heard : List Heard) → IsGiven w before after heard
        → ((other : List Heard) → IsGiven w before after other → other ≡ heard)
        → IsFetchAnswer w heard (Err refusal) }
{}
