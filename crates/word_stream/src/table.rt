ghost use Rattle.std.specs.Prelude.{◌≡◌, ℕ, IfSome, Some};
ghost use Rattle.word_stream.specs.declared.request.Request.{Request};
ghost use Rattle.word_stream.specs.declared.request.Response.{Response};
ghost use Rattle.word_stream.specs.Reading.{Begins, request_of};

use crate::request::{Request, Response};
use sqlite_items::Items;
use srmt_base::{Kind, RequestKind, Site, Word};

/// What is asked at one site.
#[derive(Clone, Copy, Debug, PartialEq, Eq)]
pub struct SiteRow {
    pub request: RequestKind,
    /// How many operands the request has.
    pub operands: u8,
    /// How many cells an object has that begins there, and 0 at any other site.
    pub cells: u16,
    /// The number of the function that is called there, and 0 at any other site.
    pub function: u16,
    /// Whether the function is called through a pointer.
    pub indirect: bool,
}

/// What is asked at each site, and how many parameters each function of the main file has.
#[derive(Debug, Drop)]
pub struct SiteTable {
    /// The sites in order, the first of which is 1.
    pub sites: Items<SiteRow>,
    /// The numbers of parameters in the order of the functions, the first of which is 1.
    pub params: Items<u8>,
}

impl SiteTable {
    ghost use Rattle.std.specs.Prelude.{◌≡◌};
    ghost use Rattle.word_stream.specs.Reading.{row_at};

    /// The row of a site, or `None` where there is none.
    pub fn row(&self, site: Site) -> Option<SiteRow>
        ensures { result ≡ row_at self.now site.0 }
    {
        let before = usize::from(site.0).checked_sub(1)?;
        self.sites.get(before).copied()
    }
}

/// Reads the exchange with which the words begin, with the number of its words.
pub fn read_words(kinds: &SiteTable, words: &[Word]) -> Option<(Request, Response, usize)>
    ensures begins { IfSome result (λ found. Begins kinds.now words.now found.0 found.1 found.2) }

    // There is no other, and `None` only where there is none.
    ensures only { (request : Request) (response : Response) (count : ℕ)
        → Begins kinds.now words.now request response count
        → result ≡ Some (record { 0 = request; 1 = response; 2 = count }) }
{
    let word = *words.first()?;
    if word.kind() != Kind::Check {
        return None;
    }
    let site = word.site();
    let row = kinds.row(site)?;
    let request = request_of(row.request, site, word.value())?;
    Some((request, Response::Done, 1))
}

/// The request of a kind at a site with this operand, or `None` for the kinds that nothing asks yet.
pub fn request_of(kind: RequestKind, site: Site, value: u64) -> Option<Request>
    ensures { result ≡ request_of kind site value }
{
    match kind {
        RequestKind::Put => Some(Request::Put { site, value }),
        RequestKind::Exit => Some(Request::Exit { site, value }),
        RequestKind::Load
        | RequestKind::Store
        | RequestKind::VLoad
        | RequestKind::VStore
        | RequestKind::Get
        | RequestKind::Open
        | RequestKind::Close
        | RequestKind::Call
        | RequestKind::CallbackReturn => None,
    }
}
