//! The laws of who may have a row, and of who asks.
ghost use Rattle.std.specs.Prelude.{◌≡◌, ◌↔◌, false, IsTrue, List, Option, Ok, map, filter};
ghost use Rattle.channel_globs.specs.declared.nslc.Nslc.{Nslc};
ghost use Rattle.epochs.specs.declared.kinds.LineKind.TheVariants.{Rst, Wdr};
ghost use Rattle.epochs.specs.declared.line.Line.{Line};
ghost use Rattle.epochs.specs.Kinds.{Text};
ghost use Rattle.epochs.specs.Lines.{LineValues};
ghost use Rattle.epochs.specs.Views.{values_of_line};
ghost use Rattle.epoch_rules.specs.Rules.{is_line_of};
ghost use Rattle.mseed_header.specs.declared.row.Row.{Row};
ghost use Rattle.access_digest.specs.Access.{grants_of, is_seen, is_touched, is_unrestricted, is_whole, is_withdrawn, may_have};
ghost use Rattle.access_digest.specs.AccessLaw.{IsSparedBy, IsTouched, IsWithdrawnBy, MayHave};
ghost use Rattle.access_digest.specs.Who.{who_of};
ghost use Rattle.access_digest.specs.WhoLaw.{IsAnswerOf, Names};
ghost use Rattle.exact_time.specs.declared.moment.Moment.{Moment};
ghost use Rattle.http_digest.specs.declared.authorization.Credentials.{Credentials};
ghost use Rattle.http_digest.specs.declared.secret.Secret.{Secret};

/// A restriction touches a row where its patterns match the four codes, the row's last sample isn't before
/// its start, and the first isn't after its end. A grant covers a row where its patterns match, the first
/// sample isn't before its start, and the last isn't after its end. A caller may have a row exactly where no
/// restriction touches it, or a grant of that user covers it. A row is withdrawn exactly where a withdrawal
/// covers it: as a grant would, and the row's entry isn't a later one than the last that the withdrawal reaches;
/// and it isn't exactly where each withdrawal spares it: some code isn't matched, its start is later than the
/// row's first sample, its end earlier than the last, or the row's entry a later one than the last that it reaches.
pub fn may_have_in_the_subjects_words()
    ensures touched { (lines : List Line) (row : Row) → IsTrue (is_touched (map values_of_line lines) row) ↔ IsTouched lines row }
    ensures may { (lines : List Line) (user : Option Text) (row : Row) → IsTrue (may_have (map values_of_line lines) user row) ↔ MayHave lines user row }
    ensures withdrawn { (lines : List Line) (row : Row) → IsTrue (is_withdrawn (map values_of_line lines) row) ↔ IsWithdrawnBy lines row }
    ensures spared { (lines : List Line) (row : Row) → (is_withdrawn (map values_of_line lines) row ≡ false) ↔ IsSparedBy lines row }
{}

/// What a caller sees depends on the live restrictions and withdrawals and on the grants of that user alone:
/// where two lists of live lines have the same of these, the same rows are had, marked, withdrawn and seen, and
/// the same names are whole. What a caller may have, and what is marked, no withdrawal changes.
pub fn restrictions_and_own_grants_decide()
    ensures may { (live other : List LineValues) (user : Option Text) (row : Row)
        → filter (is_line_of Rst) live ≡ filter (is_line_of Rst) other → grants_of live user ≡ grants_of other user
        → may_have live user row ≡ may_have other user row }
    ensures touched { (live other : List LineValues) (row : Row)
        → filter (is_line_of Rst) live ≡ filter (is_line_of Rst) other → is_touched live row ≡ is_touched other row }
    ensures unrestricted { (live other : List LineValues) (name : Nslc)
        → filter (is_line_of Rst) live ≡ filter (is_line_of Rst) other → is_unrestricted live name ≡ is_unrestricted other name }
    ensures withdrawn { (live other : List LineValues) (row : Row)
        → filter (is_line_of Wdr) live ≡ filter (is_line_of Wdr) other → is_withdrawn live row ≡ is_withdrawn other row }
    ensures seen { (live other : List LineValues) (user : Option Text) (row : Row)
        → filter (is_line_of Rst) live ≡ filter (is_line_of Rst) other → filter (is_line_of Wdr) live ≡ filter (is_line_of Wdr) other
        → grants_of live user ≡ grants_of other user → is_seen live user row ≡ is_seen other user row }
    ensures whole { (live other : List LineValues) (name : Nslc)
        → filter (is_line_of Rst) live ≡ filter (is_line_of Rst) other → filter (is_line_of Wdr) live ≡ filter (is_line_of Wdr) other
        → is_whole live name ≡ is_whole other name }
{}

/// Credentials name a user exactly where their header spells an authorization for their target and this user,
/// whose nonce was issued at most 300 seconds ago and not later than now, and whose response is the one that
/// this live user has to give.
pub fn credentials_name_whom_they_prove()
    ensures { (live : List LineValues) (asked : Credentials) (now : Moment) (secret : Secret) (user : Text)
        → (who_of live asked now secret ≡ Ok user) ↔ Names live asked now secret user }
{}

/// What a client answers to a challenge, by `http_digest::authorization_of`, names its user, where that user lives with that HA1
/// and the nonce may be used.
pub fn an_answer_names_its_user()
    ensures { (live : List LineValues) (asked : Credentials) (now : Moment) (secret : Secret) (user : Text)
        → IsAnswerOf live asked now secret user → who_of live asked now secret ≡ Ok user }
{}
