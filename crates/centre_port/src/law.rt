//! What holds of all visits.
ghost use Rattle.std.specs.Prelude.{ℕ, List};
ghost use mathlib.Core.List.{IsPrefix};
ghost use Rattle.archive_entry.specs.declared.entry.Entry.{Entry};
ghost use Rattle.desk_words.specs.Setting.{Setting};
ghost use Rattle.http_replies.specs.declared.reply.Reply.{Reply};
ghost use Rattle.http_wire.specs.declared.turn.Turn.{Turn};
ghost use Rattle.link_ports.specs.Ports.{Visitor};
ghost use Rattle.streams.specs.View.{StreamView};
ghost use Rattle.centre_port.specs.Visits.{IsVisit, IsVisits, SessionOver};

/// What was served over a history was served over each history that begins with it.
pub fn a_longer_history_keeps_visits()
    ensures { (h g : List Entry) (k : ℕ) (s : Setting) (gave : List StreamView) (came : List Visitor) (replies : List (List Reply)) → IsPrefix h g
        → IsVisits h k s gave came replies → IsVisits g k s gave came replies }
{}

/// The turns of a visit are those of a session over the whole history, from its front on: each item has its turn and its
/// reply, which is its definition over the first part of that history that the turn names.
pub fn a_visit_is_a_session()
    ensures { (h : List Entry) (k : ℕ) (s : Setting) (before after : StreamView) (turns : List Turn) (replies : List Reply) → IsVisit h k s before after turns replies
        → SessionOver h k s turns replies }
{}
