ghost use Rattle.std.specs.Prelude.{◌^◌, ◌<◌, All};
ghost use Rattle.word_stream.specs.Exchange.{operands_of};

use crate::{Out, Request, Response, SiteRow, SiteTable, read_words, words_of};
use sqlite_items::Items;
use srmt_base::{Kind, RequestKind, Site, Word, pack};
use std::alloc::{AllocError, Global};
use std::test::Fail;

fn row(request: RequestKind) -> SiteRow {
    SiteRow {
        request,
        operands: 1,
        cells: 0,
        function: 0,
        indirect: false,
    }
}

// A program that writes a byte at site 1 and ends at site 2.
fn sites(alloc: Global) -> Result<SiteTable, AllocError> {
    let mut sites = Items::new(alloc);
    sites.push(row(RequestKind::Put))?;
    sites.push(row(RequestKind::Exit))?;
    let mut params = Items::new(alloc);
    params.push(0)?;
    Ok(SiteTable { sites, params })
}

// The first word of a request's exchange, and what is read back from its words.
fn sent(kinds: &SiteTable, request: Request) -> (Option<u64>, Option<(Request, Response, usize)>)
    requires { All (λ v. v < 2 ^ 44) (operands_of request) }
{
    let mut out = Out::new();
    words_of(&request, &Response::Done, &mut out);
    let first = out.words().first().map(|word| word.bits());
    (first, read_words(kinds, out.words()))
}

#[test]
fn writes_and_reads_exchanges(rt: HostRuntime) -> Result<(), Fail> {
    let kinds = sites(rt.alloc())?;
    let (site, value) = (Site(1), 65);
    let request = Request::Put { site, value };
    let (first, read) = sent(&kinds, request);
    assert_eq!(rt; first, Some(0x1000_1000_0000_0041));
    assert_eq!(rt; read, Some((request, Response::Done, 1)));
    let (site, value) = (Site(2), 300);
    let request = Request::Exit { site, value };
    let (first, read) = sent(&kinds, request);
    assert_eq!(rt; first, Some(0x1000_2000_0000_012c));
    assert_eq!(rt; read, Some((request, Response::Done, 1)));
    Ok(())
}

#[test]
fn refuses_what_is_no_exchange(rt: HostRuntime) -> Result<(), Fail> {
    let kinds = sites(rt.alloc())?;
    assert!(rt; Word::of_bits(0).is_none());
    for word in [
        pack(Kind::Ack, Site(1), 65),
        pack(Kind::Check, Site(0), 65),
        pack(Kind::Check, Site(3), 65),
    ] {
        assert_eq!(rt; read_words(&kinds, &[word]), None);
    }
    assert_eq!(rt; read_words(&kinds, &[]), None);
    Ok(())
}
