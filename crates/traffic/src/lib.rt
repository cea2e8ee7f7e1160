// *Traffic page*, request 2026-04: what each node sends and receives in a step, as lines of text in a lent buffer. The page stands in
// `page`; the checks up to 42 are those of *carry out*.
#![tactic(auto)]

ghost use Rattle.std.specs.Prelude.{◌≡◌, length};
ghost use Rattle.carry.specs.Inner.{PairAccepted};
ghost use Rattle.traffic.specs.Page.{page_answer, page_after, number_of, answer_of};
ghost use Rattle.traffic.specs.Inner.{Countable, TrafficOf};
ghost use Rattle.traffic.specs.declared.PageRefusal.TheVariants.{Check};

use carry::check;
use carry::check::CheckRefusal;
use moves::{Moves, route};
use sheet::Sheet;
use words::Refusal;

pub mod page;

// Why a page is refused, in the order of the checks.
#[derive(Clone, Copy, Debug, PartialEq, Eq)]
pub enum PageRefusal {
    Check(CheckRefusal),
    Buffer,
}

impl From<CheckRefusal> for PageRefusal {
    ghost from_gives = { λ r made. made ≡ Check r };

    fn from(r: CheckRefusal) -> PageRefusal {
        PageRefusal::Check(r)
    }
}

impl Refusal for PageRefusal {
    ghost number_of = { number_of };

    fn number(self) -> u32 {
        match self {
            PageRefusal::Check(r) => r.number(),
            PageRefusal::Buffer => 53,
        }
    }
}

// What each node sends and receives, over all subdomains and partners.
#[derive(Drop)]
struct Traffic {
    sent: [u32; 64],
    received: [u32; 64],
}

// The traffic of the record `moves` of e entries, in one pass. No sum is above that of all counts, so none wraps.
fn count_traffic(moves: &[u8], e: usize) -> Traffic
    requires { Countable moves.now e }
    ensures { TrafficOf moves.now e result }
{
    let mut sent = [0u32; 64];
    let mut received = [0u32; 64];
    for i in 0..e {
        let r = words::word_number(moves, 2 + i);
        let count = words::word_number(moves, 2 + e + i);
        sent[route::sender(r) as usize] += count;
        received[route::receiver(r) as usize] += count;
    }
    Traffic { sent, received }
}

// The page of a sheet and moves, both read.
fn page_read(
    sheet: &[u8],
    moves: &[u8],
    s: Sheet,
    m: Moves,
    page: &mut [u8],
) -> Result<u32, PageRefusal>
    requires { PairAccepted sheet.now moves.now s m }
    ensures answer { answer_of result ≡ page_answer sheet.now moves.now (length page.old) }
    ensures bytes { page.new ≡ page_after sheet.now moves.now page.old }
{
    let mut table = sheet::table::unpack(sheet, s.e as usize);
    if !transfer::apply::subtract_sends(&mut table, moves, m.e as usize) {
        return Err(PageRefusal::Check(CheckRefusal::Sends));
    }
    let size = 25 * (s.n as usize + 1);
    if page.len() < size {
        return Err(PageRefusal::Buffer);
    }
    let Traffic { sent, received } = count_traffic(moves, m.e as usize);
    page::put_page(page, s.n as usize, sent, received);
    Ok(size as u32)
}

// *Traffic page*.
pub fn traffic_page(sheet: &[u8], moves: &[u8], page: &mut [u8]) -> Result<u32, PageRefusal>
    ensures answer { answer_of result ≡ page_answer sheet.now moves.now (length page.old) }
    ensures bytes { page.new ≡ page_after sheet.now moves.now page.old }
{
    let (s, m) = check::read_pair(sheet, moves)?;
    page_read(sheet, moves, s, m, page)
}
