//! The paths, and what each leads to.
ghost use Rattle.std.specs.Prelude.{◌≡◌};
ghost use Rattle.service_paths.specs.Paths.{row, row_of, rows_of, routes};
ghost use Rattle.service_paths.specs.declared.page.Access.TheVariants.{Open, Signed};
ghost use Rattle.service_paths.specs.declared.page.Page.TheVariants.{Query, Version, Feed};

use crate::page::{Access, Asked, Page, Service};
use archive_entry::Kind;

/// A path and what it leads to.
#[derive(Clone, Copy, Debug, PartialEq, Eq)]
pub struct Route {
    /// The path, byte for byte.
    pub path: &'static str,
    /// What it leads to.
    pub page: Page,
}

impl Route {
    fn open(path: &'static str, asked: Asked) -> Route
        ensures { row_of result ≡ row path.now (Query asked Open) }
    {
        let access = Access::Open;
        let page = Page::Query { asked, access };
        Route { path, page }
    }

    fn signed(path: &'static str, asked: Asked) -> Route
        ensures { row_of result ≡ row path.now (Query asked Signed) }
    {
        let access = Access::Signed;
        let page = Page::Query { asked, access };
        Route { path, page }
    }

    fn version(path: &'static str, service: Service) -> Route
        ensures { row_of result ≡ row path.now (Version service) }
    {
        let page = Page::Version(service);
        Route { path, page }
    }

    fn feed(path: &'static str, kind: Kind) -> Route
        ensures { row_of result ≡ row path.now (Feed kind) }
    {
        let page = Page::Feed(kind);
        Route { path, page }
    }
}

/// The table of the paths (FDSN Web Service Specifications 1.2, and of availability fdsnws-availability 1.0).
pub fn routes() -> [Route; 15]
    ensures { rows_of result ≡ routes }
{
    [
        Route::open("/fdsnws/dataselect/1/query", Asked::Records),
        Route::signed("/fdsnws/dataselect/1/queryauth", Asked::Records),
        Route::open("/fdsnws/availability/1/query", Asked::Spans),
        Route::open("/fdsnws/availability/1/extent", Asked::Extents),
        Route::signed("/fdsnws/availability/1/queryauth", Asked::Spans),
        Route::signed("/fdsnws/availability/1/extentauth", Asked::Extents),
        Route::open("/fdsnws/station/1/query", Asked::Stations),
        Route::open("/fdsnws/event/1/query", Asked::Events),
        Route::version("/fdsnws/dataselect/1/version", Service::Dataselect),
        Route::version("/fdsnws/availability/1/version", Service::Availability),
        Route::version("/fdsnws/station/1/version", Service::Station),
        Route::version("/fdsnws/event/1/version", Service::Event),
        Route::feed("/feed/1/batch", Kind::Batch),
        Route::feed("/feed/1/revise", Kind::Revise),
        Route::signed("/archive/1/entries", Asked::Entries),
    ]
}
