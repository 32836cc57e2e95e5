//! The users among the lines of a catalog.
ghost use Rattle.std.specs.Prelude.{◌≡◌, false, find, map, option_map, MatchOption};
ghost use Rattle.epochs.specs.Values.{user_line};
ghost use Rattle.epochs.specs.Views.{values_of_line};
ghost use Rattle.epochs.specs.declared.kinds.LineKind.TheVariants.{Usr};
ghost use Rattle.epoch_rules.specs.Catalog.{IsCatalog, is_user, user_place};
ghost use Rattle.epoch_rules.specs.KeyOrder.{key_parts_of};
ghost use Rattle.epoch_rules.specs.Rules.{is_line_of};

use epoch_rules::{KeyKind, key_view};
use epochs::{Line, User};
use std::cmp::Ordering;

// Where a line stands to the user of a name: before, at it or behind.
fn place_to(name: &[u8], line: &Line) -> Ordering
    ensures { result ≡ user_place name.now (key_parts_of (values_of_line line.now)) }
{
    let key = key_view(line);
    key.kind.cmp(&KeyKind::User).then(key.first.cmp(&name))
}

// The user that a line states.
fn user_of(line: &Line) -> Option<&User>
    ensures { MatchOption result (is_line_of Usr (values_of_line line.now) ≡ false) (λ user. values_of_line line.now ≡ user_line user.now.name user.now.ha1 user.now.roles) }
{
    match line {
        Line::Usr(user) => Some(user),
        _ => None,
    }
}

/// The user of that name among the lines of a catalog, found by halves.
pub fn user_in<'a>(lines: &'a [Line], name: &[u8]) -> Option<&'a User>
    requires { IsCatalog (map values_of_line lines.now) }
    ensures { option_map (λ user. user_line user.now.name user.now.ha1 user.now.roles) result ≡ find (is_user name.now) (map values_of_line lines.now) }
{
    match lines.binary_search_by(|line| place_to(name, line)) {
        Ok(place) => user_of(&lines[place]),
        Err(_) => None,
    }
}
