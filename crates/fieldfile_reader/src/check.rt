// A field checked, without writing anything.
ghost use Rattle.std.specs.Prelude.{◌≡◌, ◌+◌, ◌<◌, ◌^◌, length};
ghost use Rattle.wire_spec.specs.Result.{Ok, ◌then◌};
ghost use Rattle.fieldfile_reader.specs.Answers.{read_of};
ghost use Rattle.fieldfile_spec.specs.File.{field_size, read_field, read_front};

use crate::field::Summary;
use crate::rules::within_limits;
use crate::stages::{check_file, check_header, check_offset};
use crate::version::{count_at, version_at};
use anc_reader::check::check_run;
use fieldfile_spec::format::{F_AT, Version};
use wire_spec::count::OctetCount;
use wire_spec::layout::Layout;
use wire_spec::number::Timestamp;
use wire_spec::refusal::{Refusal, refuse};
use wire_words::octet::quad_at;

// 52, 53, 9 to 12 and 16, 21, of the field at the front of the octets, which stand at `at` of a file of this version.
fn check_front(octets: &[u8], at: OctetCount, version: Version) -> Result<Summary, Refusal>
    requires { at.0 + length octets.now < 2 ^ 64 }
    ensures { result ≡ read_of (read_front version octets.now then λ k. Ok (k, at.0 + field_size version k.records)) }
{
    let header = check_header(octets, version)?;
    let count = count_at(octets, version);
    let size = header.0;
    let run = check_run(Layout::Rfc8331, &octets[size..], count)?;
    if !within_limits(count, run.cells) {
        return refuse(Refusal::OVER_LIMIT);
    }
    Ok(Summary {
        timestamp: Timestamp(quad_at(octets, 0)),
        f: octets[F_AT],
        records: count,
        cells: run.cells,
        next: OctetCount(at.0 + (size + run.octets.0)),
    })
}

// Everything but 14.
pub fn check(file: &[u8], at: OctetCount) -> Result<Summary, Refusal>
    ensures { result ≡ read_of (read_field file.now at.0) }
{
    check_file(file)?;
    let from = check_offset(file, at)?;
    let start = from.0;
    check_front(&file[start..], from, version_at(file))
}
