//! The kinds of revision lines.

/// What a revision line states.
#[derive(Clone, Copy, Debug, PartialEq, Eq)]
pub enum LineKind {
    /// A network.
    Net,
    /// A station.
    Sta,
    /// A channel.
    Cha,
    /// An event.
    Evt,
    /// A restriction of channels.
    Rst,
    /// A grant of channels to a user.
    Grt,
    /// A user.
    Usr,
    /// A withdrawal of records.
    Wdr,
}

/// How a line begins.
#[derive(Clone, Copy, Debug, PartialEq, Eq)]
pub enum Head {
    /// With its kind: it states something.
    Says(LineKind),
    /// With `DEL` and the kind of the line whose key it has: it ends that line.
    Deletes(LineKind),
}
