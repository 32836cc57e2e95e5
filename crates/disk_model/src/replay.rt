//! Writes over a file, and what the steps since a sync leave free of it.
ghost use Rattle.std.specs.Prelude.{◌≡◌, ◌<◌, ◌≤◌, ℕ, List, length, slice_index, if◌then◌else◌, OnOk, OnErr};
ghost use Rattle.disk_model.specs.Disk.{overwritten};
ghost use Rattle.disk_model.specs.Images.{is_within};
ghost use Rattle.disk_model.specs.Changes.{State, at_rest, after, state_after, changes_in};
ghost use Rattle.disk_model.specs.Choices.{IsFilled, is_free};

use crate::change::{Change, Step};
use std::alloc::AllocError;

/// Writes over what is there, and past the end; or leaves the file as it was.
pub(crate) fn put(file: &mut Vec<u8>, at: usize, bytes: &[u8]) -> Result<(), AllocError>
    requires { at ≤ length file.old.items }
    ensures ok { OnOk result (file.new.items ≡ overwritten file.old.items at bytes.now) }
    ensures err { OnErr result (file.new.items ≡ file.old.items) }
{
    let inside = bytes.len().min(file.len() - at);
    file.extend_from_slice(&bytes[inside..])?;
    file[at..at + inside].copy_from_slice(&bytes[..inside]);
    Ok(())
}

// Sets so many bytes from `at` on, as far as there are bytes.
fn fill(image: &mut [u8], at: usize, len: usize, byte: u8)
    ensures { (k : ℕ) → k < length image.old → slice_index image.new k ≡ (if is_within at len k then byte else slice_index image.old k) }
{
    let end = at.saturating_add(len).min(image.len());
    if at < end {
        image[at..end].fill(byte);
    }
}

// One step again: the bytes that were written since the last sync are set.
fn fill_step(step: &Step, content: &[u8], byte: u8, image: &mut [u8])
    requires { length image.old ≡ length content.now }
    ensures { (s : State) → IsFilled s.images.is_written content.now byte image.old
        → IsFilled (after s step.now.change).images.is_written content.now byte image.new }
{
    match &step.change {
        Change::Wrote { at, bytes } => fill(image, *at, bytes.len(), byte),
        Change::Tore { at, len } => fill(image, *at, *len, byte),
        Change::Cut { .. } => {}
        Change::Synced => image.copy_from_slice(content),
    }
}

// Sets each byte that was written since the last sync, in a copy of the file as it reads.
fn fill_written(steps: &[Step], content: &[u8], byte: u8, image: &mut [u8])
    requires { image.old ≡ content.now }
    ensures { (base : List ℕ) → IsFilled (state_after (at_rest base) (changes_in steps.now)).images.is_written content.now byte image.new }
{
    'steps: for step in steps {
        fill_step(step, content, byte, image);
    }
}

/// Sets each free byte to this one, in a copy of the file as it reads: `base` is the file at the last
/// sync, and the steps are those since.
pub(crate) fn fill_free(base: &[u8], steps: &[Step], content: &[u8], byte: u8, image: &mut [u8])
    requires copy { image.old ≡ content.now }
    requires base { (state_after (at_rest base.now) (changes_in steps.now)).images.base ≡ base.now }
    ensures { IsFilled (is_free (state_after (at_rest base.now) (changes_in steps.now)).images) content.now byte image.new }
{
    fill_written(steps, content, byte, image);
    let past = image.len().saturating_sub(base.len());
    fill(image, base.len(), past, byte);
}
