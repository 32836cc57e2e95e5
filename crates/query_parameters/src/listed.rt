//! Values that are lists by commas, and the words of availability.
ghost use Rattle.std.specs.Prelude.{◌≡◌, Some, None, [], ◌∷◌, map, codes, IfOk, MatchResult};
ghost use Rattle.std.specs.List.{list_any, list_all};
ghost use Rattle.std.specs.Str.{bytes_eq};
ghost use Rattle.query_parameters.specs.Listed.{items_of, is_quality_item, is_one_of, asks_quality, qualities_in, is_merge_item, has_item, merges_in, spans_order_of, extent_order_of, avail_form_of, is_form_left_out};

use crate::avail::{AvailForm, AvailOrder, Merges, QualitySet};
use crate::values::BadValue;
use std::alloc::{AllocError, Global};

/// The items of a list by commas.
pub fn items_in(alloc: Global, text: &[u8]) -> Result<Vec<&[u8]>, AllocError>
    ensures { IfOk result (λ items. map (λ x. x.now) items.items ≡ items_of text.now) }
{
    text.split(|byte| *byte == b',').collect(alloc)
}

fn is_quality_item(item: &[u8]) -> bool
    ensures { result ≡ is_quality_item item.now }
{
    item == b"*".as_slice()
        || item == b"B".as_slice()
        || item == b"D".as_slice()
        || item == b"R".as_slice()
        || item == b"Q".as_slice()
        || item == b"M".as_slice()
}

fn all_name_qualities(items: &[&[u8]]) -> bool
    ensures { result ≡ list_all (λ x. is_quality_item x.now) items.now }
{
    items.iter().all(|item| is_quality_item(item))
}

fn are_quality_items(items: &[&[u8]]) -> bool
    ensures { result ≡ list_all is_quality_item (map (λ x. x.now) items.now) }
{
    all_name_qualities(items)
}

// Whether an item asks for the quality of a letter.
fn asks_for(letter: &[u8], item: &[u8]) -> bool
    ensures { result ≡ is_one_of (codes "*" ∷ codes "B" ∷ letter.now ∷ []) item.now }
{
    item == b"*".as_slice() || item == b"B".as_slice() || item == letter
}

fn one_asks_for(letter: &[u8], items: &[&[u8]]) -> bool
    ensures { result ≡ list_any (λ x. is_one_of (codes "*" ∷ codes "B" ∷ letter.now ∷ []) x.now) items.now }
{
    items.iter().any(|item| asks_for(letter, item))
}

fn asks_quality(letter: &[u8], items: &[&[u8]]) -> bool
    ensures { result ≡ asks_quality letter.now (map (λ x. x.now) items.now) }
{
    one_asks_for(letter, items)
}

/// The qualities that some items ask for (`quality`): `*` or `B`, which are all four, `D`, `R`, `Q` and `M`.
pub fn read_qualities(items: &[&[u8]]) -> Result<QualitySet, BadValue>
    ensures exact { MatchResult result (λ set. qualities_in (map (λ x. x.now) items.now) ≡ Some set) (λ _. qualities_in (map (λ x. x.now) items.now) ≡ None) }
{
    if !are_quality_items(items) {
        return Err(BadValue);
    }
    Ok(QualitySet {
        d: asks_quality(b"D", items),
        r: asks_quality(b"R", items),
        q: asks_quality(b"Q", items),
        m: asks_quality(b"M", items),
    })
}

fn is_merge_item(item: &[u8]) -> bool
    ensures { result ≡ is_merge_item item.now }
{
    item == b"samplerate".as_slice()
        || item == b"quality".as_slice()
        || item == b"overlap".as_slice()
}

fn all_name_merges(items: &[&[u8]]) -> bool
    ensures { result ≡ list_all (λ x. is_merge_item x.now) items.now }
{
    items.iter().all(|item| is_merge_item(item))
}

fn are_merge_items(items: &[&[u8]]) -> bool
    ensures { result ≡ list_all is_merge_item (map (λ x. x.now) items.now) }
{
    all_name_merges(items)
}

fn one_is(word: &[u8], items: &[&[u8]]) -> bool
    ensures { result ≡ list_any (λ x. bytes_eq x.now word.now) items.now }
{
    items.iter().any(|item| *item == word)
}

fn has_item(word: &[u8], items: &[&[u8]]) -> bool
    ensures { result ≡ has_item word.now (map (λ x. x.now) items.now) }
{
    one_is(word, items)
}

/// What some items merge (`merge`): `samplerate`, `quality` and `overlap`.
pub fn read_merges(items: &[&[u8]]) -> Result<Merges, BadValue>
    ensures exact { MatchResult result (λ merges. merges_in (map (λ x. x.now) items.now) ≡ Some merges) (λ _. merges_in (map (λ x. x.now) items.now) ≡ None) }
{
    if !are_merge_items(items) {
        return Err(BadValue);
    }
    Ok(Merges {
        rate: has_item(b"samplerate", items),
        quality: has_item(b"quality", items),
        overlap: has_item(b"overlap", items),
    })
}

/// The order of spans (`orderby`): `nslc_time_quality_samplerate`, `latestupdate` or `latestupdate_desc`.
pub fn read_spans_order(text: &[u8]) -> Result<AvailOrder, BadValue>
    ensures exact { MatchResult result (λ order. spans_order_of text.now ≡ Some order) (λ _. spans_order_of text.now ≡ None) }
{
    if text == b"nslc_time_quality_samplerate".as_slice() {
        return Ok(AvailOrder::Name);
    }
    if text == b"latestupdate".as_slice() {
        return Ok(AvailOrder::UpdatedUp);
    }
    if text == b"latestupdate_desc".as_slice() {
        return Ok(AvailOrder::UpdatedDown);
    }
    Err(BadValue)
}

/// The order of extents: those of spans, `timespancount` or `timespancount_desc`.
pub fn read_extent_order(text: &[u8]) -> Result<AvailOrder, BadValue>
    ensures exact { MatchResult result (λ order. extent_order_of text.now ≡ Some order) (λ _. extent_order_of text.now ≡ None) }
{
    if text == b"timespancount".as_slice() {
        return Ok(AvailOrder::CountUp);
    }
    if text == b"timespancount_desc".as_slice() {
        return Ok(AvailOrder::CountDown);
    }
    read_spans_order(text)
}

/// The form of an answer (`format`): `text` or `request`.
pub fn read_avail_form(text: &[u8]) -> Result<AvailForm, BadValue>
    ensures exact { MatchResult result (λ form. avail_form_of text.now ≡ Some form) (λ _. avail_form_of text.now ≡ None) }
{
    if text == b"text".as_slice() {
        return Ok(AvailForm::Text);
    }
    if text == b"request".as_slice() {
        return Ok(AvailForm::Request);
    }
    Err(BadValue)
}

/// Whether a form of availability is one that this data centre leaves out.
pub fn is_form_left_out(text: &[u8]) -> bool
    ensures { result ≡ is_form_left_out text.now }
{
    text == b"geocsv".as_slice() || text == b"json".as_slice() || text == b"zip".as_slice()
}
