// A run of pages within a task.
ghost use Rattle.std.specs.Prelude.{◌≡◌, ℕ, ◌+◌, ◌<◌, ◌≤◌, cond, ◌&&◌, is_some, IfSome, nat_le, nat_lt};

use crate::PAGES;

// At least one page, and none past page 4,095.
#[derive(Clone, Copy)]
pub struct Range {
    first: u16,
    pages: u16,
    ghost some: { 0 < pages },
    ghost within: { first + pages ≤ 4096 },
}

// Whether there is a page, and none from page `limit` on.
pub fn fits(first: u16, pages: u16, limit: u16) -> bool
    ensures { result ≡ (nat_lt 0 pages && nat_le (first + pages) limit) }
{
    pages != 0 && pages <= limit && first <= limit - pages
}

impl Range {
    // None if there is no page or the last lies past page 4,095.
    pub fn new(first: u16, pages: u16) -> Option<Range>
        ensures exactly { is_some result ≡ (nat_lt 0 pages && nat_le (first + pages) 4096) }
        ensures numbers { IfSome result (λ x. (x.first ≡ first) × (x.pages ≡ pages)) }
    {
        if !fits(first, pages, PAGES) {
            return None;
        }
        Some(Range { first, pages })
    }

    // The first page.
    pub fn first(&self) -> u16
        ensures { result ≡ self.now.first }
    {
        self.first
    }

    // How many pages there are.
    pub fn pages(&self) -> u16
        ensures { result ≡ self.now.pages }
    {
        self.pages
    }

    // The page after the last.
    pub fn end(&self) -> u16
        ensures { result ≡ self.now.first + self.now.pages }
    {
        let first = self.first;
        first + self.pages
    }
}

// Pages from one on to before another; none where these are the same, as at a cut.
#[derive(Clone, Copy)]
pub struct Span {
    pub from: u16,
    pub to: u16,
    ghost ordered: { from ≤ to },
}

impl From<Range> for Span {
    ghost from_gives = { λ x r. (r.from ≡ x.first) × (r.to ≡ x.first + x.pages) };

    fn from(x: Range) -> Span {
        Span {
            from: x.first(),
            to: x.end(),
        }
    }
}
