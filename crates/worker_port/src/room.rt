//! How much room a worker makes.
ghost use Rattle.std.specs.Prelude.{◌≡◌, ◌≤◌, ◌*◌, ◌^◌};
ghost use Rattle.channel_model.specs.Amounts.{room_of};
ghost use Rattle.worker_port.specs.Line.{page_places, page_words};

// The words of a page.
pub(crate) const PAGE: u64 = 512;

/// The packets for which a worker makes room each way, where so many requests are to come or to go: one for each, and another one where messages go
/// back besides the answers.
pub fn room_of(besides: bool, requests: u64) -> u64
    requires { requests ≤ 2 ^ 33 }
    ensures value { result ≡ room_of besides requests }
    ensures most { result ≤ 2 * requests }
{
    if besides { 2 * requests } else { requests }
}

// The page words of so many packets at most, in a channel with so many data pages.
pub(crate) fn words_of_pages(pages: u32, packets: u64) -> u64
    requires { packets ≤ 2 ^ 35 }
    ensures value { result ≡ page_words pages packets }
    ensures most { result ≤ 512 * packets }
{
    if pages == 0 { 0 } else { PAGE * packets }
}

// The places for these page words.
pub(crate) fn places_of_pages(pages: u32, packets: u64) -> u64
    ensures value { result ≡ page_places pages packets }
    ensures most { result ≤ packets }
{
    if pages == 0 { 0 } else { packets }
}
