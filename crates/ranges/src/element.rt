// What a row of a range table must be able to do.
ghost use Rattle.std.specs.Prelude.{◌≡◌, ℕ, ◌+◌, ◌<◌, ◌≤◌, true, cond, ◌&&◌, is_some, IfSome, nat_le, nat_lt};
ghost use Rattle.ranges.specs.Shape.{Shape, Laws, Altering, end, front_of, back_of, proper, holds};

use crate::range::Range;

// Something said of each page of a range, such as a map entry. It is a plain row, so the methods that make parts ask that it is
// proper; and that a page is inside is asked of each, since it ties the page to this element, and no type of the page alone could.
pub trait Element: Copy {
    ghost shape: { Shape Self };

    // A cut inside gives two parts that say what the whole said.
    ghost laws: { Laws shape };

    fn first(&self) -> u16
        ensures { result ≡ shape.first self.now };

    fn pages(&self) -> u16
        ensures { result ≡ shape.pages self.now };

    // The part of so many of its pages, from a page on.
    fn part(&self, first: u16, pages: u16) -> Self
        requires proper { proper shape self.now ≡ true }
        requires from { shape.first self.now ≤ first }
        requires within { first + pages ≤ end shape self.now }
        ensures { result ≡ shape.part first pages self.now };

    // What is said of one of its pages. It need not be the part of that page, so each kind says it itself.
    fn one(&self, page: u16) -> Self
        requires proper { proper shape self.now ≡ true }
        requires from { shape.first self.now ≤ page }
        requires below { page < end shape self.now }
        ensures { result ≡ shape.one page self.now };

    // The part below a page inside.
    fn front(&self, page: u16) -> Self
        requires proper { proper shape self.now ≡ true }
        requires above { shape.first self.now < page }
        requires below { page < end shape self.now }
        ensures { result ≡ front_of shape page self.now }
    {
        let first = self.first();
        self.part(first, page - first)
    }

    // The part from a page inside on.
    fn back(&self, page: u16) -> Self
        requires proper { proper shape self.now ≡ true }
        requires above { shape.first self.now < page }
        requires below { page < end shape self.now }
        ensures { result ≡ back_of shape page self.now }
    {
        self.part(page, self.first() + self.pages() - page)
    }
}

// A change of what elements say, which moves none.
pub trait Change<E: Element> {
    ghost alters: { Self → E → E };

    fn apply(&self, e: E) -> E
        ensures { result ≡ alters self.now e };

    // It keeps each element's place and bounds, and is the same page by page.
    ghost still: { (c : Self) → Altering E.Element.shape (alters c) };
}

// The range of a row; None if the row is none of a table's.
pub fn range_of<E: Element>(e: &E) -> Option<Range>
    ensures exactly { is_some result ≡ (nat_lt 0 (E.Element.shape.pages e.now) && nat_le (end E.Element.shape e.now) 4096) }
    ensures numbers { IfSome result (λ x. (x.first ≡ E.Element.shape.first e.now) × (x.pages ≡ E.Element.shape.pages e.now)) }
{
    Range::new(e.first(), e.pages())
}
