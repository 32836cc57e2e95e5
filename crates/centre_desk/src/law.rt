//! What holds of every request.
ghost use Rattle.std.specs.Prelude.{◌≡◌, ◌≤◌, ◌==◌, ℕ, Bool, true, false, List, Some, All, is_some};
ghost use Rattle.std.specs.List.{slice_get};
ghost use Rattle.exact_time.specs.declared.moment.Moment.{Moment};
ghost use Rattle.archive_entry.specs.declared.entry.Entry.{Entry};
ghost use Rattle.archive_entry.specs.declared.entry.Kind.{Kind};
ghost use Rattle.archive_state.specs.Lawful.{is_lawful};
ghost use Rattle.desk_words.specs.Setting.{Setting};
ghost use Rattle.http_wire.specs.declared.request.Request.{Request};
ghost use Rattle.service_paths.specs.declared.page.Access.{Access};
ghost use Rattle.service_paths.specs.declared.page.Asked.{Asked};
ghost use Rattle.service_paths.specs.declared.page.Page.TheVariants as page;
ghost use Rattle.centre_desk.specs.Laws.{PathRows, FeedRows, QueryRows, Sent, Posts, after_requests, told_repeat};
ghost use Rattle.centre_desk.specs.Replies.{told_of, reply_of};
ghost use Rattle.centre_desk.specs.Turns.{reached};

/// What a request is told, row by row in the order of the tests. Of each path's rows exactly one holds.
pub fn a_request_is_told_by_the_first_test_it_fails()
    ensures path { (s : Setting) (h : List Entry) (r : Request) (m : Moment) (added : Bool) → PathRows s h r m added }
    ensures feed { (s : Setting) (h : List Entry) (r : Request) (m : Moment) (added : Bool) (kind : Kind) → reached r ≡ Some (page.Feed kind)
        → FeedRows s h r m added kind }
    ensures query { (s : Setting) (h : List Entry) (r : Request) (m : Moment) (added : Bool) (asked : Asked) (access : Access) → reached r ≡ Some (page.Query asked access)
        → QueryRows s h r m added asked access }
{}

/// No definition tells that a disk stopped a command, or that memory ran out: a reply of 503 is one of a desk that was
/// stopped, and one of 500 comes of memory alone.
pub fn no_request_is_told_of_disk_or_memory()
    ensures disk { (s : Setting) (h : List Entry) (r : Request) (m : Moment) (added : Bool) → ((reply_of h r m s added).status == 503) ≡ false }
    ensures memory { (s : Setting) (h : List Entry) (r : Request) (m : Moment) (added : Bool) → ((reply_of h r m s added).status == 500) ≡ false }
{}

/// A command acts once: whoever posts it again, as often as one likes, adds nothing to a lawful history that has its
/// entry, and is told that entry's number, as of the same or as of another one, or that its author may no longer post.
pub fn a_repeated_command_acts_once()
    ensures told { (s : Setting) (h : List Entry) (n : ℕ) (e : Entry) (x : Sent) → is_lawful h ≡ true → slice_get h n ≡ Some e → 1 ≤ e.seq
        → (again : Posts h s e.author e.seq x) → told_of h x.request x.moment s false ≡ told_repeat h e again.posted }
    ensures adds { (s : Setting) (h : List Entry) (n : ℕ) (e : Entry) (sent : List Sent) → is_lawful h ≡ true → slice_get h n ≡ Some e → 1 ≤ e.seq
        → All (Posts h s e.author e.seq) sent → after_requests s h sent ≡ h }
{}
