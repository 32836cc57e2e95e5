//! The kinds of keys, in the order in which lines stand.
ghost use Rattle.std.specs.Prelude.{◌≡◌, Some, nat_eq, refl};
ghost use Rattle.std.specs.Ordering.{nat_cmp};
ghost use Rattle.std.specs.Cmp.{partial_equiv_from_equiv};
ghost use Rattle.epoch_rules.specs.KeyKinds.{key_rank, same_kinds, kinds_total, kinds_tied, kinds_ordered};

use std::cmp::Ordering;

/// The kind of a key. Kinds are ordered as they stand here.
#[derive(Clone, Copy, Debug)]
pub enum KeyKind {
    Network,
    Station,
    Channel,
    Event,
    Restriction,
    Grant,
    User,
    Withdrawal,
    /// Behind all keys.
    Last,
}

impl KeyKind {
    // The place of the kind.
    fn rank(self) -> u8
        ensures { result ≡ key_rank self }
    {
        match self {
            KeyKind::Network => 0,
            KeyKind::Station => 1,
            KeyKind::Channel => 2,
            KeyKind::Event => 3,
            KeyKind::Restriction => 4,
            KeyKind::Grant => 5,
            KeyKind::User => 6,
            KeyKind::Withdrawal => 7,
            KeyKind::Last => 255,
        }
    }
}

impl PartialEq for KeyKind {
    ghost eq = { λ a b. nat_eq (key_rank a) (key_rank b) };

    ghost laws = { partial_equiv_from_equiv same_kinds };

    fn eq(&self, other: &Self) -> bool {
        self.rank() == other.rank()
    }
}

impl Eq for KeyKind {
    ghost laws = { same_kinds };
}

impl PartialOrd for KeyKind {
    ghost partial_cmp = { λ a b. Some (nat_cmp (key_rank a) (key_rank b)) };

    ghost laws = { kinds_ordered };

    fn partial_cmp(&self, other: &Self) -> Option<Ordering> {
        Some(self.cmp(other))
    }
}

impl Ord for KeyKind {
    ghost cmp = { λ a b. nat_cmp (key_rank a) (key_rank b) };

    ghost total = { kinds_total };

    ghost matches_partial_cmp = { λ a b. refl };

    ghost matches_eq = { kinds_tied };

    fn cmp(&self, other: &Self) -> Ordering {
        self.rank().cmp(&other.rank())
    }
}
