//! Who sends a command, and the verdict on it.
ghost use Rattle.std.specs.Prelude.{◌≡◌, ◌≤◌, ℕ, true, Ok, IfOk, IfSome, option_map};
ghost use Rattle.access_digest.specs.Who.{who_of};
ghost use Rattle.archive_entry.specs.Bodies.{IsCounted};
ghost use Rattle.archive_state.specs.Admits.{IsAdmit};
ghost use Rattle.archive_state.specs.History.{live_of, earlier_of};
ghost use Rattle.archive_state.specs.Lawful.{IsLawful};
ghost use Rattle.archive_state.specs.declared.verdict.Verdict.TheVariants.{Accept};
ghost use Rattle.desk_words.specs.Posting.{can_be_posted, ruling};
ghost use Rattle.desk_words.specs.Setting.{setting};

use access_digest::{WhoFault, who};
use archive_entry::Entry;
use archive_state::{Admit, Limits, Posted, Verdict, known_records};
use exact_time::{Moment, OutOfMemory, Text};
use http_digest::Secret;
use std::alloc::Global;

/// A verdict, the author of the command where it isn't denied, and how many records its body has, where that is known.
#[derive(Drop)]
pub struct Judged {
    pub verdict: Verdict,
    pub author: Text,
    pub records: Option<usize>,
}

// The author's entry with that sequence number, found by look-ups.
fn earlier<'a>(admit: &Admit, entries: &'a [Entry], author: &[u8], seq: u64) -> Option<&'a Entry>
    requires seq { 1 ≤ seq }
    requires admit { IsAdmit admit.now entries.now }
    requires lawful { IsLawful entries.now }
    ensures { option_map (λ e. e.now) result ≡ earlier_of entries.now author.now seq }
{
    let number = admit.earlier(author, seq)?;
    match entries.get(number as usize - 1) {
        Some(entry) => Some(entry),
        None => None,
    }
}

/// The verdict on what was posted over a history, of which these are the entries. Who sends it is asked once, and its
/// body's records are counted once.
pub fn judge(
    alloc: Global,
    admit: &Admit,
    entries: &[Entry],
    posted: &Posted,
    moment: Moment,
    secret: &Secret,
    limits: &Limits,
) -> Result<Judged, OutOfMemory>
    requires fit { can_be_posted posted.now moment ≡ true }
    requires admit { IsAdmit admit.now entries.now }
    requires lawful { IsLawful entries.now }
    ensures verdict { IfOk result (λ j. j.verdict ≡ ruling entries.now posted.now moment (setting secret.now limits.now)) }
    ensures author { IfOk result (λ j. (n : ℕ) → j.verdict ≡ Accept n → who_of (live_of entries.now) posted.now.credentials moment secret.now ≡ Ok j.author) }
    ensures records { IfOk result (λ j. IfSome j.records (IsCounted posted.now.kind posted.now.body)) }
{
    let author = match who(alloc, admit.catalog(), &posted.credentials, moment, secret) {
        Ok(author) => author,
        Err(WhoFault::Denied(denial)) => {
            return Ok(Judged {
                verdict: Verdict::Denied(denial),
                author: Text::new(alloc),
                records: None,
            });
        }
        Err(WhoFault::OutOfMemory) => return Err(OutOfMemory),
    };
    let earlier = earlier(admit, entries, author.as_slice(), posted.seq);
    let records = known_records(posted.kind, posted.body.as_slice());
    let verdict = admit.judge_by(author.as_slice(), posted, records, earlier, limits)?;
    Ok(Judged {
        verdict,
        author,
        records,
    })
}
