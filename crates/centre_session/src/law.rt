//! What holds of every session.
ghost use Rattle.std.specs.Prelude.{ℕ, List};
ghost use mathlib.Core.List.{IsPrefix};
ghost use Rattle.archive_entry.specs.declared.entry.Entry.{Entry};
ghost use Rattle.desk_words.specs.Setting.{Setting};
ghost use Rattle.http_replies.specs.declared.reply.Reply.{Reply};
ghost use Rattle.http_wire.specs.declared.turn.Turn.{Turn};
ghost use Rattle.centre_session.specs.Items.{Item};
ghost use Rattle.centre_session.specs.Laws.{OneListOfItems, SomeListOfItems};
ghost use Rattle.centre_session.specs.Turns.{IsSession};

/// What was served over a history was served over each history that begins with it.
pub fn a_longer_history_keeps_a_session()
    ensures { (s : Setting) (h g : List Entry) (k : ℕ) (items : List Item) (turns : List Turn) (replies : List Reply) → IsPrefix h g
        → IsSession h k s items turns replies → IsSession g k s items turns replies }
{}

/// Whatever the bytes of a stream are, they are one list of items that ends in one way, however they are cut.
pub fn a_stream_has_one_list_of_items()
    ensures one { OneListOfItems }
    ensures some { SomeListOfItems }
{}
