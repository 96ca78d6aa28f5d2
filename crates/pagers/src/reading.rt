// An image file's numbers.
ghost use Rattle.std.specs.Prelude.{◌≡◌, ◌^◌, ◌<◌, ◌≤◌, is_ok, IfOk, length, map};
ghost use Rattle.pagers.specs.Images.{extent_in, extents, extent_count, page_count, head_good};

use crate::extent::Extent;
use crate::opening::BadImage;

// The page count and the bytes of each extent, if these and the number of extents are as they must be.
pub(crate) fn head(file: &[u8]) -> Result<(u16, &[[u8; 8]]), BadImage>
    ensures exactly { is_ok result ≡ head_good file.now }
    ensures pages { IfOk result (λ h. h.0 ≡ page_count file.now) }
    ensures few { IfOk result (λ h. (length h.1.now ≡ extent_count file.now) × (length h.1.now ≤ 32)) }
    ensures table { IfOk result (λ h. map extent_in h.1.now ≡ extents file.now) }
{
    let &[high, low, extents, ref rest @ ..] = file else {
        return Err(BadImage);
    };
    let pages = u16::from_be_bytes([high, low]);
    let (rows, _) = rest.as_chunks();
    match rows.get(..usize::from(extents)) {
        Some(table) if pages <= 4096 && extents <= 32 => Ok((pages, table)),
        _ => Err(BadImage),
    }
}

// The extent that eight bytes of the table say.
pub(crate) fn extent(bytes: &[u8; 8]) -> Extent
    ensures is { result ≡ extent_in bytes.now }
    ensures small { result.position < 2 ^ 32 }
{
    let [f1, f0, n1, n0, p3, p2, p1, p0] = *bytes;
    Extent {
        first: u16::from_be_bytes([f1, f0]),
        pages: u16::from_be_bytes([n1, n0]),
        position: u64::from(u32::from_be_bytes([p3, p2, p1, p0])),
    }
}
