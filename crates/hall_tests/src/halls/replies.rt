//! Replies to requests, over the desks of a hall.
use super::{batch, post};
use archive_state::{Limits, Verdict};
use centre_desk::reply;
use desk_words::Desk;
use exact_time::Many;
use http_wire::{Inbox, MemoryLink, Request, read_request};
use sample_data::{NOW, SECRET, bytes, three_hertz_record};
use std::alloc::Global;
use std::process::Abort;
use std::sync::Wait;
use std::test::Fail;

// The request that these bytes are.
fn request_of(alloc: Global, text: &[u8]) -> Result<Request, Fail> {
    let mut pieces = Many::new(alloc);
    pieces.push(bytes(alloc, text)?)?;
    let mut link = MemoryLink::new(alloc, pieces, Many::new(alloc));
    let mut inbox = Inbox::new(alloc)?;
    Ok(read_request(alloc, &mut link, &mut inbox, 1_048_576)?)
}

// One submits; the other, which wasn't called before, replies over as many entries as the request asks for.
pub fn the_other_replies<R: Wait + Abort, K: Desk>(
    rt: &R,
    alloc: Global,
    one: &mut K,
    two: &mut K,
) -> Result<(), Fail> {
    let record = batch(alloc, "feed1", 2, &three_hertz_record())?;
    let told = post(rt, alloc, one, &record)??;
    assert_eq!(rt; (told.verdict, two.front()), (Verdict::Accept(4), 3));
    let request = request_of(
        alloc,
        b"GET /fdsnws/dataselect/1/query?net=IU HTTP/1.1\r\nX-Archive-Front: 4\r\n\r\n",
    )?;
    if request.body.len() > 1_048_576 || !NOW.is_clock_moment() {
        return Err("no request".into());
    }
    let (reply, turn) = reply(rt, alloc, two, &request, NOW, &SECRET, &Limits::FULL)?;
    assert_eq!(rt; (reply.status, reply.front, turn.front), (200, 4, 4));
    assert_eq!(rt; (reply.body.len(), two.front()), (1024, 4));
    Ok(())
}
