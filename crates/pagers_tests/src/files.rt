// Image files in the making, and what a fetch is to come to.
use pagers::{Image, PagerFault};
use std::array;

// Writes the page count and the number of extents.
pub fn head(file: &mut [u8], pages: u16, extents: u8) {
    if let [high, low, count, ..] = file {
        [*high, *low] = pages.to_be_bytes();
        *count = extents;
    }
}

// Writes extent `i`.
pub fn extent(file: &mut [u8], i: u8, first: u16, pages: u16, position: u32) {
    let Some(rows) = file.get_mut(3 + 8 * usize::from(i)..) else {
        return;
    };
    if let [f1, f0, n1, n0, p3, p2, p1, p0, ..] = rows {
        [*f1, *f0] = first.to_be_bytes();
        [*n1, *n0] = pages.to_be_bytes();
        [*p3, *p2, *p1, *p0] = position.to_be_bytes();
    }
}

// Fills the file from a place on: byte k behind it is k modulo 251.
pub fn fill(file: &mut [u8], from: usize) {
    for (k, byte) in file.iter_mut().skip(from).enumerate() {
        *byte = (k % 251) as u8;
    }
}

// A page of the filling, from its byte `from` on.
pub fn filling(from: usize) -> [u8; 256] {
    array::from_fn(|i| ((from % 251 + i) % 251) as u8)
}

// Whether the file is an image.
pub fn opens(file: &[u8]) -> bool {
    Image::open(file).is_ok()
}

// What a fetch answers that meets this fault.
pub fn fault(cause: u8, object: u16, page: u16) -> Result<(), PagerFault> {
    Err(PagerFault {
        cause,
        object,
        page,
    })
}
