//! What an intake keeps.
use archive_entry::Entry;
use archive_log::Archive;
use archive_state::Admit;
use disk_model::Disk;

/// An archive, with what judges its next command, and with the entry that was committed last and that nobody has taken
/// over yet.
#[derive(Drop)]
pub struct Intake<D: Disk> {
    pub(crate) archive: Archive<D>,
    pub(crate) admit: Admit,
    // The entry that was committed and isn't taken over yet, and whether judging has taken it in.
    pub(crate) waiting: Option<Entry>,
    pub(crate) noted: bool,
}
