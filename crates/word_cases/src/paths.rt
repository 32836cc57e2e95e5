//! Steps on paths, methods and targets.
use crate::fields::put;
use crate::given::text_of;
use exact_time::{OutOfMemory, Text};
use http_replies::Allow;
use service_paths::{Page, Target, is_allowed, page_of, split_target};
use std::alloc::Global;

fn methods_of(page: Option<Page>) -> Option<Allow> {
    Some(page?.methods())
}

fn version_of(page: Option<Page>) -> &'static str {
    match page {
        Some(Page::Version(service)) => service.version(),
        _ => "no version",
    }
}

// Whether the page of a path has a method. The path and the method stand with a blank between.
fn allows(alloc: Global, given: &[u8]) -> Result<bool, OutOfMemory> {
    let (path, method) = text_of(given).split_once(' ').unwrap_or(("", ""));
    match methods_of(page_of(alloc, path.as_bytes())?) {
        Some(methods) => Ok(is_allowed(methods, method.as_bytes())),
        None => Ok(false),
    }
}

fn put_target(alloc: Global, target: Target<'_>, out: &mut Text) -> Result<(), OutOfMemory> {
    let (path, query) = (text_of(target.path), text_of(target.query));
    put(alloc, out, format_args!("{path} {query:?}"))
}

/// What a step on paths gives.
pub fn show(alloc: Global, call: &str, given: &[u8], out: &mut Text) -> Result<(), OutOfMemory> {
    let page = page_of(alloc, given)?;
    match call {
        "page" => put(alloc, out, format_args!("{page:?}")),
        "methods" => put(alloc, out, format_args!("{:?}", methods_of(page))),
        "version" => put(alloc, out, format_args!("{:?}", version_of(page))),
        "allows" => put(alloc, out, allows(alloc, given)?),
        "target" => put_target(alloc, split_target(given), out),
        _ => out.push("no such call"),
    }
}
