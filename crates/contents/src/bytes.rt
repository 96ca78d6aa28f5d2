// The bytes of a cell, in a page of their own.
ghost use Rattle.std.specs.Prelude.{◌≡◌, ℕ, ◌+◌, ◌*◌, ◌≤◌, true, length, Some};
ghost use Rattle.chains.specs.declared.End.{End as EndOf};
ghost use Rattle.objects.specs.View.{in_use, is_held, walk_end};
ghost use Rattle.contents.specs.Loads.{frame_bytes, page_number, FetchedPage, Loads};

use crate::fault::{ObjectFault, Wanted};
use chains::End;
use objects::Store;
use pagers::Pager;

// The bytes of a frame.
#[tactic(auto, using(std::proofs::lemmas::List::take_rest))]
fn framed(memory: &[u8], slot: u8) -> [u8; 256]
    requires { 256 * slot + 256 ≤ length memory.now }
    ensures { result ≡ frame_bytes memory.now slot }
{
    let from = 256 * usize::from(slot);
    *memory[from..].first_chunk().unwrap()
}

// A page of an object, fetched into a cleared page.
fn paged<P: Pager>(pager: &mut P, wanted: Wanted) -> Result<[u8; 256], ObjectFault>
    ensures same { P.Pager.meaning pager.new ≡ P.Pager.meaning pager.old }
    ensures page { FetchedPage (P.Pager.meaning pager.old) wanted.object wanted.page result }
{
    let mut page = [0u8; 256];
    pager
        .fetch(wanted.object, wanted.page, &mut page)
        .map_err(|fault| (fault, wanted))?;
    Ok(page)
}

// The bytes of the cell of a record and an index: those of the frame at which its walk ends, zeros, or those of a page that
// is fetched.
pub fn load<P: Pager>(
    store: &Store,
    memory: &[u8],
    pager: &mut P,
    sharing: u8,
    index: u16,
) -> Result<[u8; 256], ObjectFault>
    requires used { in_use store.now.tables sharing ≡ true }
    requires frames { (k : ℕ) → is_held store.now.tables k ≡ true → 256 * k + 256 ≤ length memory.now }
    ensures same { P.Pager.meaning pager.new ≡ P.Pager.meaning pager.old }
    ensures loads { (e : EndOf) → walk_end store.now.tables sharing index ≡ Some e → Loads (P.Pager.meaning pager.old) memory.now e result }
{
    let Some(walk) = store.walk(sharing, index) else {
        unreachable()
    };
    match walk.end {
        End::Frame(slot) => Ok(framed(memory, slot)),
        End::Zeros => Ok([0; 256]),
        End::Page { object, page } => paged(
            pager,
            Wanted {
                object,
                page: u16::try_from(page).unwrap_or(u16::MAX),
            },
        ),
    }
}
