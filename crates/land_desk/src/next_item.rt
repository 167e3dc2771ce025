//! Serves the first item of a stream, from its bytes to the bytes of its response.
ghost use Rattle.std.specs.Prelude.{◌≡◌, ◌≤◌, ◌+◌, length, take, drop, IfOk, true};
ghost use Rattle.std.specs.Io.KnownBytes.{prepend_known};
ghost use Rattle.httparse.specs.Grammar.{RequestHead};
ghost use Rattle.httparse.specs.Spans.{IsRequestAt, span_bytes};
ghost use Rattle.land_core.specs.Acts.{is_well_formed_request};
ghost use Rattle.land_desk.specs.Keepers.{AnswersRequest, ServesFirst};
ghost use Rattle.land_desk.specs.Turns.{CountsFailedRead, SendsResponse, MakesProgress, ReadsOnlyItem};
ghost use Rattle.land_desk.specs.Turns.{StaysWithinBudget, wire_bytes};
ghost use Rattle.land_keep.specs.Keepers.{WasHonest};
ghost use Rattle.land_keep.specs.Machine.{at_of};
ghost use Rattle.land_wire.specs.Fields.{field_map};
ghost use Rattle.land_wire.specs.Framing.Frame.{header_fields};
ghost use Rattle.land_wire.specs.Framing.Items.{IsRequestIn};
ghost use Rattle.land_wire.specs.Framing.Reads.{StaysWithin, input_limit};
ghost use Rattle.land_wire.specs.Framing.Stream.{field_room};
ghost use Rattle.land_wire.specs.Laws.{IsExplicitMoment};
ghost use Rattle.land_wire.specs.Reading.{request_reading};
ghost use Rattle.land_wire.specs.Routes.Table.{RoutesCorrectly};
ghost use Rattle.land_wire_json.specs.Bodies.WireFaults.{Returns};

use crate::handler::{Response, handle, reject};
use crate::serve::DeskFault;
use httparse::spans::{HeaderSpan, RequestSpans};
use land_core::ask::Request;
use land_keep::clock::Clock;
use land_keep::keeper::Keeper;
use land_streams::buffer::consume_front;
use land_streams::counted_reader::CountedReader;
use land_streams::send::send;
use land_streams::stream_fault::StreamFault;
use land_wire::fields::caller_at;
use land_wire::framing::connection::{is_head, wants_close};
use land_wire::framing::item::{NextItem, read_item};
use land_wire::reading::read_routed;
use land_wire::routes::table::Endpoint;
use land_wire_json::bodies::wire_fault::WireFault;
use matchit::Router;
use std::alloc::Global;
use std::io::{Read, Write};

/// What to do after an item was served.
#[derive(Clone, Copy, Debug, PartialEq, Eq)]
pub enum AfterItem {
    /// Nothing: the input ended.
    Eof,
    /// Close the connection: its last response was sent.
    Close,
    /// Keep the connection open: a response was sent.
    KeepAlive,
}

/// Serves the first item of `buffer` followed by the bytes of `reader`, and removes its bytes from `buffer`.
///
/// Does not read once the item is complete. Errors: those of `DeskFault`. After `Read` and `NoMemory` nothing
/// was answered and no byte is lost: the bytes that were read are in `buffer`, and the item can be served
/// later. So a reader that does not block may fail where it would.
pub fn serve_next_item<R: Read, W: Write, K: Keeper, C: Clock>(
    alloc: Global,
    router: &Router<Endpoint>,
    reader: &mut CountedReader<'_, R>,
    writer: &mut W,
    keeper: &mut K,
    clock: &mut C,
    buffer: &mut Vec<u8>,
    headers: &mut [HeaderSpan],
) -> Result<AfterItem, DeskFault>
    requires routed { RoutesCorrectly router.now }
    requires room { field_room ≤ length headers.old }
    ensures room { length headers.new ≡ length headers.old }
    ensures next_item { ServesFirst K.Keeper C.reads keeper.old clock.old keeper.new clock.new
        (prepend_known buffer.old.items (R.remaining reader.old.reader.now))
        (prepend_known buffer.new.items (R.remaining reader.new.reader.now))
        (W.contents writer.old) (W.contents writer.new) result }
    ensures was { WasHonest K.Keeper keeper.old keeper.new }
    ensures reads { ReadsOnlyItem buffer.old.items buffer.new.items
        (R.remaining reader.old.reader.now) (R.remaining reader.new.reader.now) result }
    ensures budget { StaysWithinBudget buffer.old.items buffer.new.items
        (R.remaining reader.old.reader.now) (R.remaining reader.new.reader.now)
        reader.old.left reader.new.left }
    ensures same_reference { reader.new.reader.ghost_name ≡ reader.old.reader.ghost_name }
    ensures limit { StaysWithin input_limit buffer.old.items buffer.new.items }
    ensures fewer { reader.new.left ≤ reader.old.left }
    ensures progress { MakesProgress buffer.old.items buffer.new.items
        reader.old.left reader.new.left result }
    ensures read_fault { CountsFailedRead reader.old.left reader.new.left result }
{
    match read_item(reader, buffer, headers) {
        Err(StreamFault::Read) => Err(DeskFault::Read),
        Err(StreamFault::NoMemory) => Err(DeskFault::NoMemory),
        Ok(NextItem::End) => Ok(AfterItem::Eof),
        Ok(NextItem::Fault(fault)) => write_response(writer, &reject(alloc, fault)),
        Ok(NextItem::Request(spans, length)) => {
            let answer = answer_first(alloc, router, keeper, clock, buffer, headers, spans, length);
            let next_item = write_response(writer, &answer);
            consume_front(buffer, spans.len + length);
            next_item
        }
    }
}

/// Writes a response.
fn write_response<W: Write>(writer: &mut W, answer: &Response) -> Result<AfterItem, DeskFault>
    ensures { SendsResponse (wire_bytes answer.now.bytes) answer.now.close_after
        (W.contents writer.old) (W.contents writer.new) result }
{
    match send(writer, answer.bytes.as_slice()) {
        Err(_) => Err(DeskFault::Write),
        Ok(()) if answer.close_after => Ok(AfterItem::Close),
        Ok(()) => Ok(AfterItem::KeepAlive),
    }
}

/// Answers the request at the start of the buffer.
fn answer_first<K: Keeper, C: Clock>(
    alloc: Global,
    router: &Router<Endpoint>,
    keeper: &mut K,
    clock: &mut C,
    buffer: &[u8],
    headers: &[HeaderSpan],
    spans: RequestSpans,
    length: usize,
) -> Response
    requires routed { RoutesCorrectly router.now }
    requires at_front { IsRequestIn buffer.now headers.now spans length }
    ensures spoken { AnswersRequest K.Keeper C.reads keeper.old clock.old keeper.new clock.new
        buffer.now (spans.len + length) result }
    ensures was { WasHonest K.Keeper keeper.old keeper.new }
{
    let request = parse_first(alloc, router, buffer, headers, &spans, length);
    let close_after = wants_close(&spans, buffer, headers);
    let head = is_head(&spans, buffer, headers);
    handle(alloc, keeper, clock, request, close_after, head)
}

/// Parses the request at the start of the buffer, or returns its first fault.
fn parse_first(
    alloc: Global,
    router: &Router<Endpoint>,
    buffer: &[u8],
    headers: &[HeaderSpan],
    spans: &RequestSpans,
    length: usize,
) -> Result<Request, WireFault>
    requires routed { RoutesCorrectly router.now }
    requires at_front { IsRequestIn buffer.now headers.now spans.now length }
    ensures reads { (h : RequestHead) → IsRequestAt buffer.now headers.now spans.now h
        → Returns (λ asked. asked) result (request_reading h.method h.target (field_map (header_fields h))
        (take length (drop spans.now.len buffer.now))) }
    ensures well_formed { IfOk result (λ asked. is_well_formed_request asked ≡ true) }
    ensures moment { IfOk result (λ asked. IsExplicitMoment (at_of asked.ask)) }
{
    let caller = caller_at(buffer, &headers[..spans.headers]);
    let method = spans.method.of(buffer);
    let target = target_of(buffer, headers, spans, length);
    let body = &buffer[spans.len..spans.len + length];
    read_routed(alloc, router, method, target, caller, body)
}

/// Returns the request target. It is valid UTF-8, because reading the head rejected any other.
fn target_of<'b>(
    buffer: &'b [u8],
    headers: &[HeaderSpan],
    spans: &RequestSpans,
    length: usize,
) -> &'b str
    requires { IsRequestIn buffer.now headers.now spans.now length }
    ensures { result.now ≡ span_bytes buffer.now spans.now.path }
{
    match str::from_utf8(spans.path.of(buffer)) {
        Ok(target) => target,
        Err(_) => unreachable!(),
    }
}
