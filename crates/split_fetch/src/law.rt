//! What holds of the definitions, whatever the code does.
ghost use Rattle.std.specs.Prelude.{◌≡◌, ◌≤ℤ◌, ◌∷◌, ℕ, Bool, List, length, None, Ok, IsPermutation, IsSorted};
ghost use Rattle.std.specs.List.Sorted.{IsStable};
ghost use Rattle.list_laws.specs.Only.{IsOnly};
ghost use Rattle.mseed_header.specs.declared.row.Row.{Row};
ghost use Rattle.dataselect.specs.DataBody.{data_body};
ghost use Rattle.dataselect.specs.Rows.{held_rows};
ghost use Rattle.dataselect.specs.declared.query.DataQuery.{DataQuery};
ghost use Rattle.dataselect.specs.declared.query.Selection.{Selection};
ghost use Rattle.query_words.specs.DataGet.{IsDataGet, IsGetFault};
ghost use Rattle.split_fetch.specs.Fronts.{fronts_of, first_move};
ghost use Rattle.split_fetch.specs.Gathering.{start_cmp, gathered, IsGathered, GatherRefuses};
ghost use Rattle.split_fetch.specs.Once.{Follows, InOrder, asked_in};
ghost use Rattle.split_fetch.specs.Parts.{AreParts};
ghost use Rattle.split_fetch.specs.Peers.{OneHeard};
ghost use Rattle.split_fetch.specs.Rounds.{Goes, Ends, Stage, after, begun, way_after};
ghost use Rattle.split_fetch.specs.Targets.{AreSpelt, CanBeAsked, query_in, target_bytes, window_query};
ghost use Rattle.split_fetch.specs.Windows.{windows_of, Adjoin, Make, in_window};
ghost use Rattle.split_fetch.specs.declared.answer.WindowAnswer.{WindowAnswer};
ghost use Rattle.split_fetch.specs.declared.asked.Codes.{Codes};
ghost use Rattle.split_fetch.specs.declared.fault.GatherFault.TheVariants.{Moved, TooLarge};
ghost use Rattle.split_fetch.specs.declared.heard.Heard.{Heard};
ghost use Rattle.split_fetch.specs.declared.heard.Outcome.TheVariants.{Done};
ghost use Rattle.split_fetch.specs.declared.window.Window.{Window};

/// What is gathered are the rows without doubles, each once, sorted by name, quality letter and start; rows of which these
/// are equal stand in the order of their first arrival.
pub fn rows_are_gathered_in_order()
    ensures same { (rows : List Row) → IsPermutation (held_rows rows) (gathered rows) }
    ensures sorted { (rows : List Row) → IsSorted start_cmp (gathered rows) }
    ensures ties { (rows : List Row) → IsStable start_cmp (held_rows rows) (gathered rows) }
{}

/// Where the answers for windows that together are the whole have one front, and the bytes of each are the data body
/// of its own window, over the same rows and by the same sight, their windows adjoin, and what [`crate::gather`] makes of
/// them is the data body of the whole, or `TooLarge` with the number of its bytes. The rows have no doubles, which holds of
/// all that are held.
pub fn parts_make_the_whole()
    ensures held { (rows : List Row) → held_rows (held_rows rows) ≡ held_rows rows }
    ensures adjoin { (seen : Row → Bool) (query : DataQuery) (rows : List Row) (whole : Window) (answers : List WindowAnswer)
        → AreParts seen query rows whole answers → Adjoin (windows_of answers) }
    ensures bytes { (seen : Row → Bool) (query : DataQuery) (rows : List Row) (whole : Window) (answers : List WindowAnswer)
        → AreParts seen query rows whole answers
        → (bytes : List ℕ) → IsGathered answers bytes → bytes ≡ data_body seen (in_window whole query) rows }
    ensures too_large { (seen : Row → Bool) (query : DataQuery) (rows : List Row) (whole : Window) (answers : List WindowAnswer)
        → AreParts seen query rows whole answers
        → (n : ℕ) → GatherRefuses answers (TooLarge n) → n ≡ length (data_body seen (in_window whole query) rows) }
    ensures never_moved { (seen : Row → Bool) (query : DataQuery) (rows : List Row) (whole : Window) (answers : List WindowAnswer)
        → AreParts seen query rows whole answers
        → (a b : ℕ) → ¬ (GatherRefuses answers (Moved a b)) }
{}

/// A target asks for what was to be asked: of all queries and faults of the part behind its `?`, read as a query string,
/// the query for the patterns of the codes in that window alone, with the defaults otherwise, is the only right one.
pub fn a_target_reads_back()
    ensures { (codes : Codes) (window : Window) (patterns : Selection) → AreSpelt codes patterns → CanBeAsked window
        → IsOnly (IsDataGet (query_in (target_bytes codes window))) (IsGetFault (query_in (target_bytes codes window)))
        (Ok (window_query patterns window)) }
{}

/// Whatever was heard: where asking ends with all windows answered, these adjoin and make the whole, and no two
/// neighbours have different fronts.
pub fn accepted_windows_make_the_whole()
    ensures { (whole : Window) (heard : List Heard) (taken : List WindowAnswer) → whole.start.micros ≤ℤ whole.end.micros
        → way_after (Goes (begun whole 1)) heard ≡ Ends (Done taken)
        → Make whole.start.micros whole.end.micros (windows_of taken) × (first_move (fronts_of taken) ≡ None) }
{}

/// Of two requests in a row: the second is in a new round, or its window begins later than that of the first, or
/// begins with it and ends earlier. So no window is asked twice in one round, and the earlier half comes first.
pub fn windows_are_asked_in_order()
    ensures { (whole : Window) (heard : List Heard) (next : Heard) (s : Stage) (w : Window) (todo : List Window) → whole.start.micros ≤ℤ whole.end.micros
        → way_after (Goes (begun whole 1)) heard ≡ Goes s → s.todo ≡ w ∷ todo → Follows s w (after s next) }
{}

/// In a round each window that is asked comes after all that were asked before it, so that none is asked twice.
pub fn no_window_is_asked_twice()
    ensures { (whole : Window) (heard : List Heard) (round : ℕ) → whole.start.micros ≤ℤ whole.end.micros
        → InOrder (asked_in round (Goes (begun whole 1)) heard) }
{}

/// What is heard on a link is a function of the bytes that came and of whether it failed. So the windows that are asked, and how
/// asking ends, are functions of these.
pub fn one_thing_is_heard()
    ensures { OneHeard }
{}
