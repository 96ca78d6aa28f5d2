// Edits of a lent slice: the first `len` rows are in use, and the slice's length is the most there can be. The project's rule wants
// these over lent slices. A slice has no invariant, so where rows are cut it is asked that they rise; and a view of the slice with its
// length would have to give the length back to whoever lent it. `Table` keeps both. An element that comes in is a plain row, so that
// it is proper is asked too.
ghost use Rattle.std.specs.Prelude.{◌≡◌, ℕ, ◌+◌, ◌-◌, ◌<◌, ◌≤◌, true, ◌||◌, List, ◌∷◌, ◌++◌, map, length, take, drop, IfSome, if◌then◌else◌};
ghost use Rattle.ranges.specs.Shape.{Shape, Laws, end, proper};
ghost use Rattle.ranges.specs.Tables.{rising, said, taken, inserted, removed, cut as cut_at, inside, altered};
ghost use Rattle.ranges.specs.Says.{Edited, full, Inserts, Removes, Keeps, Alters};
ghost use Rattle.ranges.specs.Places.{Apart, Around};

use crate::element::{Change, Element};
use crate::range::{Range, Span};
use crate::row::{changed, trim};
use crate::scan::{around, is_taken, place};

// Puts a row before row `at`, and moves the rows from there on up by one.
fn put<E: Element>(rows: &mut [E], len: usize, at: usize, e: E)
    requires room { len < length rows.old }
    requires within { at ≤ len }
    ensures { take (len + 1) rows.new ≡ take at (take len rows.old) ++ e ∷ drop at (take len rows.old) }
{
    rows[len] = e;
    rows[at..len + 1].rotate_right(1);
}

// Puts an element at its place: None, and no row is changed, if one of its pages is taken or the table is full.
pub fn insert<E: Element>(rows: &mut [E], len: usize, e: E) -> Option<usize>
    requires within { len ≤ length rows.old }
    requires rising { rising E.Element.shape 0 (take len rows.old) ≡ true }
    requires proper { proper E.Element.shape e ≡ true }
    ensures edited { Edited (taken E.Element.shape e (take len rows.old) || full rows.old (inserted E.Element.shape e (take len rows.old))) (inserted E.Element.shape e (take len rows.old)) rows.old rows.new result }
    ensures says { IfSome result (λ n. Inserts E.Element.shape e (take len rows.old) (take n rows.new)) }
    ensures rising { IfSome result (λ n. rising E.Element.shape 0 (take n rows.new) ≡ true) }
{
    if len == rows.len() || is_taken(&rows[0..len], &e) {
        return None;
    }
    let at = place(&rows[0..len], &e);
    put(rows, len, at, e);
    Some(len + 1)
}

// Takes the span's pages out of row `at`, which lies around them: its two parts become two rows.
fn divide<E: Element>(rows: &mut [E], len: usize, at: usize, span: Span)
    requires room { len < length rows.old }
    requires rising { rising E.Element.shape 0 (take len rows.old) ≡ true }
    requires around { Around E.Element.shape span.from span.to (take len rows.old) at }
    ensures { take (len + 1) rows.new ≡ removed E.Element.shape span.from span.to (take len rows.old) }
{
    let e = rows[at];
    rows[at] = e.front(span.from);
    put(rows, len, at + 1, e.back(span.to));
}

// Takes the span's pages out of a table in which no row lies around them. How many rows are left.
fn squeeze<E: Element>(rows: &mut [E], span: Span) -> usize
    requires rising { rising E.Element.shape 0 rows.old ≡ true }
    requires apart { Apart E.Element.shape span.from span.to rows.old }
    ensures within { result ≤ length rows.old }
    ensures table { take result rows.new ≡ removed E.Element.shape span.from span.to rows.old }
{
    let mut count = 0;
    // By index: the row that is read and the row that is written are two places of one slice, and no iterator lends both.
    for i in 0..rows.len() {
        let row = rows[i];
        if let Some(part) = trim(row, span) {
            rows[count] = part;
            count += 1;
        }
    }
    count
}

// Takes the range's pages out: None, and no row is changed, if what is left does not fit the rows.
pub fn remove<E: Element>(rows: &mut [E], len: usize, range: Range) -> Option<usize>
    requires within { len ≤ length rows.old }
    requires rising { rising E.Element.shape 0 (take len rows.old) ≡ true }
    ensures edited { Edited (full rows.old (removed E.Element.shape range.first (range.first + range.pages) (take len rows.old))) (removed E.Element.shape range.first (range.first + range.pages) (take len rows.old)) rows.old rows.new result }
    ensures says { IfSome result (λ n. Removes E.Element.shape range.first (range.first + range.pages) (take len rows.old) (take n rows.new)) }
    ensures rising { IfSome result (λ n. rising E.Element.shape 0 (take n rows.new) ≡ true) }
{
    let span = Span::from(range);
    let Some(at) = around(&rows[0..len], span) else {
        return Some(squeeze(&mut rows[0..len], span));
    };
    if len == rows.len() {
        return None;
    }
    divide(rows, len, at, span);
    Some(len + 1)
}

// How many rows more the table has after a cut before `page`.
fn extra<E: Element>(rows: &[E], page: u16) -> usize
    requires { rising E.Element.shape 0 rows.now ≡ true }
    ensures small { result ≤ 1 }
    ensures count { length (cut_at E.Element.shape page rows.now) ≡ length rows.now + result }
{
    // Written out, as in `split`: the proofs of both need its two ends as they stand.
    let cut = Span {
        from: page,
        to: page,
    };
    usize::from(around(rows, cut).is_some())
}

// Cuts the table before `page`, where there is room for it. How many rows there are then.
fn split<E: Element>(rows: &mut [E], len: usize, page: u16) -> usize
    requires within { len ≤ length rows.old }
    requires rising { rising E.Element.shape 0 (take len rows.old) ≡ true }
    requires room { length (cut_at E.Element.shape page (take len rows.old)) ≤ length rows.old }
    ensures count { result ≡ length (cut_at E.Element.shape page (take len rows.old)) }
    ensures table { take result rows.new ≡ cut_at E.Element.shape page (take len rows.old) }
{
    let cut = Span {
        from: page,
        to: page,
    };
    let Some(at) = around(&rows[0..len], cut) else {
        return len;
    };
    divide(rows, len, at, cut);
    len + 1
}

// Cuts the table before a page: None, and no row is changed, if there is no room for a row more that it takes.
pub fn cut<E: Element>(rows: &mut [E], len: usize, page: u16) -> Option<usize>
    requires within { len ≤ length rows.old }
    requires rising { rising E.Element.shape 0 (take len rows.old) ≡ true }
    ensures edited { Edited (full rows.old (cut_at E.Element.shape page (take len rows.old))) (cut_at E.Element.shape page (take len rows.old)) rows.old rows.new result }
    ensures says { IfSome result (λ n. Keeps E.Element.shape (take len rows.old) (take n rows.new)) }
    ensures rising { IfSome result (λ n. rising E.Element.shape 0 (take n rows.new) ≡ true) }
{
    if rows.len() - len < extra(&rows[0..len], page) {
        return None;
    }
    Some(split(rows, len, page))
}

// Changes each row that lies in the span's pages.
fn alter<E: Element, C: Change<E>>(rows: &mut [E], span: Span, by: &C)
    ensures { rows.new ≡ map (λ e. (if inside E.Element.shape span.from span.to e then C.Change.alters by.now e else e)) rows.old }
{
    for row in rows.iter_mut() {
        *row = changed(*row, span, by);
    }
}

// Changes what is said of the range's pages: None, and no row is changed, if there is no room for the rows that the cuts at the range's ends take.
pub fn change<E: Element, C: Change<E>>(
    rows: &mut [E],
    len: usize,
    range: Range,
    by: &C,
) -> Option<usize>
    requires within { len ≤ length rows.old }
    requires rising { rising E.Element.shape 0 (take len rows.old) ≡ true }
    ensures edited { Edited (full rows.old (altered E.Element.shape (C.Change.alters by.now) range.first (range.first + range.pages) (take len rows.old))) (altered E.Element.shape (C.Change.alters by.now) range.first (range.first + range.pages) (take len rows.old)) rows.old rows.new result }
    ensures says { IfSome result (λ n. Alters E.Element.shape (C.Change.alters by.now) range.first (range.first + range.pages) (take len rows.old) (take n rows.new)) }
    ensures rising { IfSome result (λ n. rising E.Element.shape 0 (take n rows.new) ≡ true) }
{
    let span = Span::from(range);
    let more = extra(&rows[0..len], span.from) + extra(&rows[0..len], span.to);
    if rows.len() - len < more {
        return None;
    }
    let half = split(rows, len, span.from);
    let count = split(rows, half, span.to);
    alter(&mut rows[0..count], span, by);
    Some(count)
}
