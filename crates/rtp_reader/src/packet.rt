// What the tolerant reader returns.
ghost use Rattle.std.specs.Prelude.{◌≡◌};
ghost use Rattle.rtp_reader.specs.Answers.{strict_of};

use rtp_strict_reader::packet::Summary;
use wire_spec::refusal::Refusal;

// What a packet says, with the number of its records that came through and of their cells, and how many were left out.
#[derive(Clone, Copy)]
pub struct TolerantRead {
    pub summary: Summary,
    pub omitted: u8,
}

impl TolerantRead {
    // A strict answer: none left out.
    pub fn strictly(read: Result<Summary, Refusal>) -> Result<TolerantRead, Refusal>
        ensures { result ≡ strict_of read }
    {
        read.map(|summary| TolerantRead {
            summary,
            omitted: 0,
        })
    }
}
