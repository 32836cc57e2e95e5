//! Which rule a line breaks over an outline of the live lines. Each method looks at a few lines alone: since
//! the live lines are a catalog, those next to a key decide.
ghost use Rattle.std.specs.Prelude.{◌≡◌, None, not, nat_lt, length, ◌&&◌, ◌||◌, if◌then◌else◌};
ghost use Rattle.std.specs.List.{list_any};
ghost use Rattle.epochs.specs.Views.{values_of_line};
ghost use Rattle.epoch_rules.specs.Catalog.{IsCatalog};
ghost use Rattle.epoch_rules.specs.Endings.{is_child};
ghost use Rattle.epoch_rules.specs.KeyKinds.{key_rank};
ghost use Rattle.epoch_rules.specs.KeyOrder.{have_one_key};
ghost use Rattle.epoch_rules.specs.KeyViews.{parts_of_view};
ghost use Rattle.epoch_rules.specs.Losses.{network_key, station_key, user_key, grants_key, is_grant_of, new_end, is_cut_in, loses_grants, makes_orphans};
ghost use Rattle.epoch_rules.specs.Neighbours.{passes_there};
ghost use Rattle.epoch_rules.specs.Outlines.{outlined, IsOutline};
ghost use Rattle.epoch_rules.specs.Rules.{has_rival, lacks_station, lacks_network, lacks_user, is_operator, is_rival, holds_channel, holds_station, deletes_nothing, most_lines, broken_rule, own_rule, common_rule, with_line};

use crate::container::container_of;
use crate::endings::cut;
use crate::key_code::KeyCode;
use crate::key_kind::KeyKind;
use crate::key_order::{KeyView, key_view};
use crate::outline::Outline;
use crate::relations::{
    count_operator, holds_channel, holds_station, is_channel, is_epoch, is_grant, is_rival,
    is_said, is_station,
};
use crate::rule::Rule;
use crate::spans::{end, start};
use epochs::Line;

// How many lines may be live.
const MOST_LINES: usize = 100_000;

// Where a station's network would stand that starts with the station.
fn network_key(station: &Line) -> KeyView<'_>
    ensures { parts_of_view result ≡ network_key (values_of_line station.now) }
{
    KeyView {
        kind: KeyKind::Network,
        first: key_view(station).first,
        second: &[],
        third: &[],
        fourth: &[],
        fifth: &[],
        start: start(station),
    }
}

// Where a channel's station would stand that starts with the channel.
fn station_key(channel: &Line) -> KeyView<'_>
    ensures { parts_of_view result ≡ station_key (values_of_line channel.now) }
{
    KeyView {
        kind: KeyKind::Station,
        first: key_view(channel).first,
        second: key_view(channel).second,
        third: &[],
        fourth: &[],
        fifth: &[],
        start: start(channel),
    }
}

// The key of the user of a grant.
fn user_key(grant: &Line) -> KeyView<'_>
    ensures { parts_of_view result ≡ user_key (values_of_line grant.now) }
{
    KeyView {
        kind: KeyKind::User,
        first: key_view(grant).first,
        second: &[],
        third: &[],
        fourth: &[],
        fifth: &[],
        start: 0,
    }
}

// Whether a line, if there is one, is a rival.
fn is_rival_there(line: &Line, other: Option<&Line>) -> bool
    ensures { result ≡ passes_there (is_rival (values_of_line line.now)) other.entry }
{
    match other {
        Some(other) => is_rival(line, other),
        None => false,
    }
}

// Whether one of two lines, where they are there, is a rival.
fn is_rival_among(line: &Line, before: Option<&Line>, after: Option<&Line>) -> bool
    ensures { result ≡ (passes_there (is_rival (values_of_line line.now)) before.entry || passes_there (is_rival (values_of_line line.now)) after.entry) }
{
    is_rival_there(line, before) || is_rival_there(line, after)
}

// Whether a line, if there is one, is an epoch of the channel's station that contains the channel's.
fn holds_channel_there(channel: &Line, other: Option<&Line>) -> bool
    ensures { result ≡ passes_there (holds_channel (values_of_line channel.now)) other.entry }
{
    match other {
        Some(other) => holds_channel(channel, other),
        None => false,
    }
}

// Whether a line, if there is one, is an epoch of the station's network that contains the station's.
fn holds_station_there(station: &Line, other: Option<&Line>) -> bool
    ensures { result ≡ passes_there (holds_station (values_of_line station.now)) other.entry }
{
    match other {
        Some(other) => holds_station(station, other),
        None => false,
    }
}

// The key before those of all grants of a user.
fn grants_key(user: &[u8]) -> KeyView<'_>
    ensures { parts_of_view result ≡ grants_key user.now }
{
    KeyView {
        kind: KeyKind::Grant,
        first: user,
        second: &[],
        third: &[],
        fourth: &[],
        fifth: &[],
        start: i64::MIN,
    }
}

// Whether a line, if there is one, grants something to the user.
fn is_grant_there(user: &[u8], other: Option<&Line>) -> bool
    ensures { result ≡ passes_there (is_grant_of user.now) other.entry }
{
    match other {
        Some(other) => is_grant(other) && user == key_view(other).first,
        None => false,
    }
}

// The end of what a line leaves of the epoch of its key; a deletion leaves none.
fn new_end(line: &Line) -> Option<i64>
    ensures { result ≡ new_end (values_of_line line.now) }
{
    if is_said(line) {
        end(line)
    } else {
        Some(key_view(line).start)
    }
}

// How many operators a line is, if there is one.
fn count_operator_there(other: Option<&Line>) -> usize
    ensures { result ≡ (if passes_there is_operator other.entry then 1 else 0) }
{
    match other {
        Some(other) => count_operator(other),
        None => 0,
    }
}

// 1 where something holds.
fn one_if(holds: bool) -> usize
    ensures { result ≡ (if holds then 1 else 0) }
{
    if holds { 1 } else { 0 }
}

impl<'a> Outline<'a> {
    // Whether the line is an epoch that overlaps a live one of its codes with another start.
    fn has_rival(&self, line: &'a Line) -> bool
        requires outline { IsOutline self.now }
        requires catalog { IsCatalog (outlined self.now) }
        ensures { result ≡ has_rival (outlined self.now) (values_of_line line.now) }
    {
        let key = key_view(line);
        is_epoch(line)
            && is_rival_among(
                line,
                self.lines.last_before(key),
                self.lines.first_after(key),
            )
    }

    // Whether the line is a channel's, and no live epoch of its station contains it.
    fn lacks_station(&self, line: &'a Line) -> bool
        requires outline { IsOutline self.now }
        requires catalog { IsCatalog (outlined self.now) }
        ensures { result ≡ lacks_station (outlined self.now) (values_of_line line.now) }
    {
        is_channel(line) && !holds_channel_there(line, self.lines.last_up_to(station_key(line)))
    }

    // Whether the line is a station's, and no live epoch of its network contains it.
    fn lacks_network(&self, line: &'a Line) -> bool
        requires outline { IsOutline self.now }
        requires catalog { IsCatalog (outlined self.now) }
        ensures { result ≡ lacks_network (outlined self.now) (values_of_line line.now) }
    {
        is_station(line) && !holds_station_there(line, self.lines.last_up_to(network_key(line)))
    }

    // Whether the line grants something to a user who isn't live.
    fn lacks_user(&self, line: &'a Line) -> bool
        requires outline { IsOutline self.now }
        requires catalog { IsCatalog (outlined self.now) }
        ensures { result ≡ lacks_user (outlined self.now) (values_of_line line.now) }
    {
        is_grant(line) && !self.lines.contains_key(user_key(line))
    }

    // Whether the line's key is live.
    fn is_live(&self, line: &'a Line) -> bool
        requires outline { IsOutline self.now }
        ensures { result ≡ list_any (have_one_key (values_of_line line.now)) (outlined self.now) }
    {
        self.lines.contains_key(key_view(line))
    }

    // Whether the line deletes what isn't live.
    fn deletes_nothing(&self, line: &'a Line) -> bool
        requires outline { IsOutline self.now }
        ensures { result ≡ deletes_nothing (outlined self.now) (values_of_line line.now) }
    {
        !is_said(line) && !self.is_live(line)
    }

    // The first rule that a line breaks by itself.
    fn own_rule(&self, line: &'a Line) -> Option<Rule>
        requires outline { IsOutline self.now }
        requires catalog { IsCatalog (outlined self.now) }
        ensures { result ≡ own_rule (outlined self.now) (values_of_line line.now) }
    {
        if self.has_rival(line) {
            Some(Rule::Overlap)
        } else if self.lacks_station(line) {
            Some(Rule::NoStationEpoch)
        } else if self.lacks_network(line) {
            Some(Rule::NoNetworkEpoch)
        } else if self.lacks_user(line) {
            Some(Rule::NoUser)
        } else if self.deletes_nothing(line) {
            Some(Rule::Absent)
        } else {
            None
        }
    }

    // How many operators stand at the line's key: 1 or 0.
    fn operators_replaced(&self, line: &'a Line) -> usize
        requires outline { IsOutline self.now }
        requires catalog { IsCatalog (outlined self.now) }
        ensures { result ≡ (if list_any (λ l. have_one_key (values_of_line line.now) l && is_operator l) (outlined self.now) then 1 else 0) }
    {
        count_operator_there(self.lines.line_at(key_view(line)))
    }

    // Whether with the line no live user has the role operator.
    fn lacks_operator(&self, line: &'a Line) -> bool
        requires outline { IsOutline self.now }
        requires catalog { IsCatalog (outlined self.now) }
        ensures { result ≡ not (list_any is_operator (with_line (outlined self.now) (values_of_line line.now))) }
    {
        let others = self.operators - self.operators_replaced(line);
        others == 0 && count_operator(line) == 0
    }

    // Whether with the line too many lines are live.
    fn are_too_many(&self, line: &'a Line) -> bool
        requires outline { IsOutline self.now }
        requires catalog { IsCatalog (outlined self.now) }
        ensures { result ≡ nat_lt most_lines (length (with_line (outlined self.now) (values_of_line line.now))) }
    {
        let others = self.lines.len() - one_if(self.is_live(line));
        others + one_if(is_said(line)) > MOST_LINES
    }

    // Whether the line cuts an epoch of that kind in a container of these codes: it ends behind the line's
    // new end, and no later than the old one.
    fn cuts(&self, line: &'a Line, kind: KeyKind, first: KeyCode, second: KeyCode) -> bool
        requires outline { IsOutline self.now }
        requires catalog { IsCatalog (outlined self.now) }
        ensures { result ≡ list_any (λ x. is_child x && is_cut_in (key_rank kind) first second (outlined self.now) (values_of_line line.now) x) (outlined self.now) }
    {
        let Some(old) = self.lines.line_at(key_view(line)) else {
            return false;
        };
        let low = cut(kind, first, second, new_end(line));
        let high = cut(kind, first, second, end(old));
        self.ends.has_between(&self.index.ends, &low, &high)
    }

    // Whether a user has a live grant.
    fn has_grant(&self, user: &'a [u8]) -> bool
        requires outline { IsOutline self.now }
        requires catalog { IsCatalog (outlined self.now) }
        ensures { result ≡ list_any (is_grant_of user.now) (outlined self.now) }
    {
        is_grant_there(user, self.lines.first_from(grants_key(user)))
    }

    // Whether the line deletes a user who has a live grant.
    fn loses_grants(&self, line: &'a Line) -> bool
        requires outline { IsOutline self.now }
        requires catalog { IsCatalog (outlined self.now) }
        ensures { result ≡ loses_grants (outlined self.now) (values_of_line line.now) }
    {
        let key = key_view(line);
        key.kind == KeyKind::User && !is_said(line) && self.has_grant(key.first)
    }

    // Whether with the line some live line lacks its container or its user.
    fn makes_orphans(&self, line: &'a Line) -> bool
        requires outline { IsOutline self.now }
        requires catalog { IsCatalog (outlined self.now) }
        ensures { result ≡ makes_orphans (outlined self.now) (values_of_line line.now) }
    {
        match container_of(line) {
            Some(container) => {
                self.cuts(line, container.kind, container.first, container.second)
            }
            None => self.loses_grants(line),
        }
    }

    // The first rule that the live lines break with a line that breaks none by itself.
    fn common_rule(&self, line: &'a Line) -> Option<Rule>
        requires outline { IsOutline self.now }
        requires catalog { IsCatalog (outlined self.now) }
        requires none { own_rule (outlined self.now) (values_of_line line.now) ≡ None }
        ensures { result ≡ common_rule (with_line (outlined self.now) (values_of_line line.now)) }
    {
        if self.makes_orphans(line) {
            Some(Rule::Orphans)
        } else if self.lacks_operator(line) {
            Some(Rule::NoOperator)
        } else if self.are_too_many(line) {
            Some(Rule::TooMany)
        } else {
            None
        }
    }

    /// The first rule that a line breaks.
    pub fn broken_rule(&self, line: &'a Line) -> Option<Rule>
        requires outline { IsOutline self.now }
        requires catalog { IsCatalog (outlined self.now) }
        ensures { result ≡ broken_rule (outlined self.now) (values_of_line line.now) }
    {
        match self.own_rule(line) {
            Some(rule) => Some(rule),
            None => self.common_rule(line),
        }
    }
}
