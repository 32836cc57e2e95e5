//! What a path leads to.
ghost use Rattle.std.specs.Prelude.{◌≡◌};
ghost use Rattle.service_paths.specs.Paths.{query_methods, methods_of, version_text};

use archive_entry::Kind;
use http_replies::Allow;

/// What is asked for on a query path.
#[derive(Clone, Copy, Debug, PartialEq, Eq)]
pub enum Asked {
    /// Records of miniSEED (FDSN Web Service Specifications 1.2, dataselect).
    Records,
    /// The spans of time for which there are records (fdsnws-availability 1.0, query).
    Spans,
    /// The extents of those spans (fdsnws-availability 1.0, extent).
    Extents,
    /// Networks, stations or channels (FDSN Web Service Specifications 1.2, station).
    Stations,
    /// Events (FDSN Web Service Specifications 1.2, event).
    Events,
    /// The entries of the archive from a number on, as a replica copies them.
    Entries,
}

/// Whether a path asks who asks.
#[derive(Clone, Copy, Debug, PartialEq, Eq)]
pub enum Access {
    /// It doesn't.
    Open,
    /// It does: credentials come with the request (FDSN Web Service Specifications 1.2, dataselect, queryauth;
    /// fdsnws-availability 1.0, queryauth and extentauth).
    Signed,
}

/// The services, whose versions can be asked for.
#[derive(Clone, Copy, Debug, PartialEq, Eq)]
pub enum Service {
    /// That of records.
    Dataselect,
    /// That of spans and extents.
    Availability,
    /// That of networks, stations and channels.
    Station,
    /// That of events.
    Event,
}

/// What a path leads to.
#[derive(Clone, Copy, Debug, PartialEq, Eq)]
pub enum Page {
    /// An answer to a query.
    Query { asked: Asked, access: Access },
    /// The version of a service.
    Version(Service),
    /// The feed of entries, to which an entry of that kind is brought.
    Feed(Kind),
}

impl Page {
    /// The methods that a page has (FDSN Web Service Specifications 1.2, and of availability
    /// fdsnws-availability 1.0): a query is asked by `GET` or `POST`, and of events and of entries by `GET` alone; a
    /// version by `GET`; the feed takes `POST`.
    pub fn methods(self) -> Allow
        ensures { result ≡ methods_of self }
    {
        match self {
            Page::Query { asked, access: _ } => asked.methods(),
            Page::Version(_) => Allow::Get,
            Page::Feed(_) => Allow::Post,
        }
    }
}

impl Asked {
    fn methods(self) -> Allow
        ensures { result ≡ query_methods self }
    {
        match self {
            Asked::Events | Asked::Entries => Allow::Get,
            _ => Allow::Both,
        }
    }
}

impl Service {
    /// The text by which a service tells the version of its standard, with a line feed at its end (FDSN Web
    /// Service Specifications 1.2, version; fdsnws-availability 1.0, version).
    pub fn version(self) -> &'static str
        ensures { result.now ≡ version_text self }
    {
        match self {
            Service::Availability => "1.0.0\n",
            _ => "1.2.0\n",
        }
    }
}
