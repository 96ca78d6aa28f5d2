// Tests and cuts of one element.
ghost use Rattle.std.specs.Prelude.{◌≡◌, ℕ, ◌+◌, ◌<◌, ◌≤◌, true, if◌then◌else◌};
ghost use Rattle.std.specs.Option.{option_to_list};
ghost use Rattle.ranges.specs.Shape.{Shape, Laws, end, proper, holds};
ghost use Rattle.ranges.specs.Tables.{meets, trimmed, inside};

use crate::element::{Change, Element};
use crate::range::Span;

// The page after the element's last, in a width that holds it for any row.
pub fn end_of<E: Element>(e: &E) -> u32
    ensures { result ≡ end E.Element.shape e.now }
{
    u32::from(e.first()) + u32::from(e.pages())
}

// Whether the page is the element's.
pub fn has_page<E: Element>(e: &E, page: u16) -> bool
    ensures { result ≡ holds E.Element.shape page e.now }
{
    e.first() <= page && u32::from(page) < end_of(e)
}

// Whether the two have a page in common.
pub fn meet<E: Element>(a: &E, b: &E) -> bool
    ensures { result ≡ meets E.Element.shape a.now b.now }
{
    u32::from(a.first()) < end_of(b) && u32::from(b.first()) < end_of(a)
}

// What is left without the span's pages, of an element that does not lie around them. It is a plain row, and makes parts: so that it is
// proper is asked.
pub fn trim<E: Element>(e: E, span: Span) -> Option<E>
    requires proper { proper E.Element.shape e ≡ true }
    requires apart { E.Element.shape.first e < span.from → span.to < end E.Element.shape e → ⊥ }
    ensures { option_to_list result ≡ trimmed E.Element.shape span.from span.to e }
{
    let first = e.first();
    let end = end_of(&e);
    if end <= u32::from(span.from) || span.to <= first {
        Some(e)
    } else if first < span.from {
        Some(e.front(span.from))
    } else if u32::from(span.to) < end {
        Some(e.back(span.to))
    } else {
        None
    }
}

// The element, changed if it lies in the span's pages.
pub fn changed<E: Element, C: Change<E>>(e: E, span: Span, by: &C) -> E
    ensures { result ≡ (if inside E.Element.shape span.from span.to e then C.Change.alters by.now e else e) }
{
    if span.from <= e.first() && end_of(&e) <= u32::from(span.to) {
        by.apply(e)
    } else {
        e
    }
}
