//! Counts the items of bytes that are a complete stream.
ghost use Rattle.std.specs.Prelude.{◌≡◌, ◌≤◌, List, length};
ghost use Rattle.land_wire.specs.Framing.Items.{Item, AreItems, IsNextIn, IsNextOf};
ghost use Rattle.land_wire.specs.Framing.Stream.{field_room};

use crate::framing::connection::wants_close;
use crate::framing::frame_fault::FrameFault;
use crate::framing::framing::body_length_of;
use crate::framing::head::{HEAD_LIMIT, HeadParse, parse_head};
use crate::framing::item::NextItem;
use httparse::spans::HeaderSpan;

/// Returns the number of items of a stream. This also proves that each stream has a list of items.
pub fn item_count(bytes: &[u8], headers: &mut [HeaderSpan]) -> usize
    requires { field_room ≤ length headers.old }
    ensures { (items : List Item) × AreItems bytes.now items × (length items ≡ result) }
{
    let mut rest = bytes;
    let mut count = 0;
    loop {
        match next_item_of(rest, headers) {
            NextItem::End => return count,
            NextItem::Fault(_) => return count + 1,
            NextItem::Request(spans, length) => {
                if wants_close(&spans, rest, headers) {
                    return count + 1;
                }
                count += 1;
                rest = &rest[spans.len + length..];
            }
        }
    }
}

/// Returns the first item of a complete stream.
pub fn next_item_of(bytes: &[u8], headers: &mut [HeaderSpan]) -> NextItem
    requires { field_room ≤ length headers.old }
    ensures room { length headers.new ≡ length headers.old }
    ensures front { IsNextIn bytes.now headers.new result }
    ensures item { IsNextOf bytes.now result }
{
    let end = bytes.len().min(HEAD_LIMIT);
    let spans = match parse_head(&bytes[..end], headers) {
        HeadParse::Whole(spans) => spans,
        HeadParse::Never => return NextItem::Fault(FrameFault::Head),
        HeadParse::More if bytes.is_empty() => return NextItem::End,
        HeadParse::More if bytes.len() >= HEAD_LIMIT => return NextItem::Fault(
            FrameFault::HeadLong,
        ),
        HeadParse::More => return NextItem::Fault(FrameFault::Cut),
    };
    match body_length_of(&spans, bytes, headers) {
        Err(fault) => NextItem::Fault(fault),
        Ok(length) if bytes.len() - spans.len < length => NextItem::Fault(FrameFault::Cut),
        Ok(length) => NextItem::Request(spans, length),
    }
}
