// Pages that are computed.
ghost use Rattle.std.specs.Prelude.{◌≡◌, ℕ, ◌+◌, ◌*◌, ◌%◌, ◌<◌, ◌≤◌};
ghost use Rattle.pagers.specs.Bounds.{pattern_bounded};
ghost use Rattle.pagers.specs.Meaning.{bytes};
ghost use Rattle.pagers.specs.Pattern.{pattern};

use crate::PagerFault;
use crate::pager::Pager;

// Object 0 alone has pages, 64 of them. Byte i of page p is 31 p + i, modulo 256.
#[derive(Clone, Copy)]
pub struct Pattern;

// How many pages the object has.
#[tactic(auto, unfolding(crate::specs::Pattern::pattern))]
fn pages_of(object: u16) -> u16
    ensures is { result ≡ pattern.count object }
    ensures most { result ≤ 64 }
{
    if object == 0 { 64 } else { 0 }
}

// Byte `i` of a page.
fn byte_of(page: u16, i: usize) -> u8
    requires page { page < 64 }
    requires within { i < 256 }
    ensures { result ≡ (31 * page + i) % 256 }
{
    ((31 * usize::from(page) + i) % 256) as u8
}

// Writes the page into the buffer: it is the same for every object.
#[tactic(auto, using(crate::proofs::Patterns::fills))]
fn fill(page: u16, into: &mut [u8; 256])
    requires { page < 64 }
    ensures { (m : ℕ) → pattern.page m page ≡ bytes into.new }
{
    // By `enumerate`: a proof by `array::from_fn` was tried and did not close.
    for (i, byte) in into.iter_mut().enumerate() {
        *byte = byte_of(page, i);
    }
}

impl Pager for Pattern {
    ghost meaning = { λ _. pattern };

    ghost bounded = { λ _. pattern_bounded };

    fn count(&mut self, object: u16) -> u16 {
        pages_of(object)
    }

    fn fetch(&mut self, object: u16, page: u16, into: &mut [u8; 256]) -> Result<(), PagerFault> {
        if page >= pages_of(object) {
            return Err(PagerFault::missing(object, page));
        }
        fill(page, into);
        Ok(())
    }
}
