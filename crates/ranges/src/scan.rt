// Looks through a lent slice, and changes nothing. Where the rows have to rise this is asked, since a slice has no invariant.
ghost use Rattle.std.specs.Prelude.{nat_lt, position, ◌≡◌, ℕ, ◌+◌, ◌-◌, ◌<◌, ◌≤◌, true, false, List, ◌∷◌, ◌++◌, length, take, drop, MatchOption};
ghost use Rattle.std.specs.Prelude.{find as first_with};
ghost use Rattle.ranges.specs.Shape.{Shape, Laws, end, proper, holds};
ghost use Rattle.ranges.specs.Tables.{rising, said, taken, inserted, covered};
ghost use Rattle.ranges.specs.Places.{Apart, Around, reach};

use crate::element::Element;
use crate::range::{Range, Span};
use crate::row::{end_of, has_page, meet};

// The row that has the page.
fn row_of<E: Element>(rows: &[E], page: u16) -> Option<E>
    ensures { result ≡ first_with (holds E.Element.shape page) rows.now }
{
    rows.iter().copied().find(|row| has_page(row, page))
}

// What the table says of a page.
pub fn find<E: Element>(rows: &[E], page: u16) -> Option<E>
    requires { rising E.Element.shape 0 rows.now ≡ true }
    ensures { result ≡ said E.Element.shape page rows.now }
{
    let row = row_of(rows, page)?;
    Some(row.one(page))
}

// Whether an element of the table has a page in common with `e`.
pub fn is_taken<E: Element>(rows: &[E], e: &E) -> bool
    ensures { result ≡ taken E.Element.shape e.now rows.now }
{
    rows.iter().any(|row| meet(e, row))
}

// The first row that begins behind `e`.
fn behind<E: Element>(rows: &[E], e: &E) -> Option<usize>
    ensures { result ≡ position (λ x. nat_lt (E.Element.shape.first e.now) (E.Element.shape.first x)) rows.now }
{
    rows.iter().position(|row| e.first() < row.first())
}

// Before which row `e` belongs.
pub fn place<E: Element>(rows: &[E], e: &E) -> usize
    ensures within { result ≤ length rows.now }
    ensures inserted { inserted E.Element.shape e.now rows.now ≡ take result rows.now ++ e.now ∷ drop result rows.now }
{
    behind(rows, e).unwrap_or(rows.len())
}

// Which row has pages on both sides of the span.
pub fn around<E: Element>(rows: &[E], span: Span) -> Option<usize>
    ensures { MatchOption result (Apart E.Element.shape span.from span.to rows.now) (Around E.Element.shape span.from span.to rows.now) }
{
    rows.iter().position(|row| row.first() < span.from && u32::from(span.to) < end_of(row))
}

// The first page from `page` on of which the table says nothing.
fn reached<E: Element>(rows: &[E], page: u16) -> u16
    requires { rising E.Element.shape 0 rows.now ≡ true }
    ensures { result ≡ reach E.Element.shape page rows.now }
{
    let mut page = page;
    // A loop that carries the page on: a fold would be no plainer, and that the page fits is known row by row.
    for row in rows {
        if has_page(row, page) {
            page = end_of(row) as u16;
        }
    }
    page
}

// Whether the table says something of each page of the range.
pub fn covers<E: Element>(rows: &[E], range: Range) -> bool
    requires { rising E.Element.shape 0 rows.now ≡ true }
    ensures { result ≡ covered E.Element.shape range.first range.pages rows.now }
{
    range.end() <= reached(rows, range.first())
}
