// An image: a file that is lent whole, with the pages of object 0.
ghost use Rattle.std.specs.Prelude.{◌≡◌, ℕ, ◌+◌, ◌<◌, ◌≤◌, length, take, drop, if◌then◌else◌, Some, None, is_ok, IfOk, nat_le, slice_index};
ghost use Rattle.pagers.specs.Bounds.{laid_bounded};
ghost use Rattle.pagers.specs.Images.{body_from, image_good, image_meaning, zeros};
ghost use Rattle.pagers.specs.Layouts.{over};
ghost use Rattle.ranges.specs.Held.{held};

use crate::PagerFault;
use crate::layout::Layout;
use crate::opening::BadImage;
use crate::pager::Pager;

// The data of the file, and where the pages lie in it. A page in no extent is zeros, and one whose bytes
// do not all lie in the data is damaged with cause 2.
#[derive(Drop)]
pub struct Image<'a> {
    layout: Layout,
    body: &'a [u8],
    ghost fits: { (k : ℕ) → slice_index body.now k < 256 },
}

// The data of a file with so many extents.
fn data_of(file: &[u8], extents: usize) -> &[u8]
    requires { extents ≤ 32 }
    ensures is { result.now ≡ body_from extents file.now }
    ensures fits { (k : ℕ) → slice_index result.now k < 256 }
{
    file.get(3 + 8 * extents..).unwrap_or(&[])
}

impl<'a> Image<'a> {
    // The image that a file is.
    pub fn open(file: &'a [u8]) -> Result<Image<'a>, BadImage>
        ensures exactly { is_ok result ≡ image_good file.now }
        ensures meaning { IfOk result (λ i. over i.layout i.body.now ≡ image_meaning file.now) }
    {
        let layout = Layout::open(file)?;
        Ok(Image::new(layout, file))
    }

    // The image of a file with the layout that was read from it.
    pub fn new(layout: Layout, file: &'a [u8]) -> Image<'a>
        ensures { over result.layout result.body.now ≡ over layout (body_from (length (held layout.extents)) file.now) }
    {
        let body = data_of(file, layout.extents.len());
        Image { layout, body }
    }
}

// The 256 bytes at a position of the data: None if they do not all lie in it.
fn bytes_at(body: &[u8], position: u64) -> Option<[u8; 256]>
    ensures { result ≡ (if nat_le (position + 256) (length body.now) then Some (take 256 (drop position body.now)) else None) }
{
    body.get(position as usize..)?.first_chunk().copied()
}

impl<'a> Pager for Image<'a> {
    ghost meaning = { λ i. over i.layout i.body.now };

    ghost bounded = { λ i. laid_bounded i.layout.pages (held i.layout.extents) i.body.now i.layout.most i.fits };

    fn count(&mut self, object: u16) -> u16 {
        if object == 0 { self.layout.pages } else { 0 }
    }

    #[tactic(auto, unfolding(crate::specs::Images::zeros))]
    fn fetch(&mut self, object: u16, page: u16, into: &mut [u8; 256]) -> Result<(), PagerFault> {
        if object != 0 || page >= self.layout.pages {
            return Err(PagerFault::missing(object, page));
        }
        match self.layout.place(page) {
            Some(position) => {
                *into = bytes_at(self.body, position).ok_or(PagerFault::past_data(page))?;
            }
            None => *into = [0; 256],
        }
        Ok(())
    }
}
