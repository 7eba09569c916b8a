// The stages of reading before the ANC data packets (01, "Field file").
ghost use Rattle.std.specs.Prelude.{◌&&◌, ◌≡◌, ◌≤◌, eqb, leb, length};
ghost use Rattle.wire_spec.specs.Bits.{bits_at};
ghost use Rattle.wire_spec.specs.Result.{Ok, judge};
ghost use Rattle.wire_offsets.specs.Stage.{stage_of};
ghost use Rattle.fieldfile_spec.specs.File.{field_header_checks, field_header_size, file_checks, file_head_size, file_name, is_version, name_bits, name_size, offset_checks};

use crate::rules::f_ok;
use crate::version::header_size;
use fieldfile_spec::format::{F_AT, HEAD_SIZE, NAME, NAME_SIZE, VERSION_1, VERSION_2, Version};
use wire_spec::count::OctetCount;
use wire_spec::refusal::{Refusal, refuse};
use wire_words::octet::{pair_at, wide};

// The file starts with `ANF`.
fn name_ok(file: &[u8]) -> bool
    requires { name_size ≤ length file.now }
    ensures { result ≡ eqb (bits_at file.now 0 name_bits) file_name }
{
    (wide(file[0]) * 256 + wide(file[1])) * 256 + wide(file[2]) == NAME
}

// A version that is read (02, K2).
fn version_ok(number: usize) -> bool
    ensures { result ≡ is_version number }
{
    (number == VERSION_1) | (number == VERSION_2)
}

// 50, 51: the octets of the head.
pub fn check_file(file: &[u8]) -> Result<OctetCount, Refusal>
    ensures { result ≡ stage_of (judge 0 (file_checks file.now) (Ok file_head_size)) }
{
    if file.len() < NAME_SIZE {
        return refuse(Refusal::NOT_ANF);
    }
    if !name_ok(file) {
        return refuse(Refusal::NOT_ANF);
    }
    if file.len() < HEAD_SIZE {
        return refuse(Refusal::FILE_VERSION_WRONG);
    }
    if !version_ok(pair_at(file, NAME_SIZE)) {
        return refuse(Refusal::FILE_VERSION_WRONG);
    }
    Ok(OctetCount(HEAD_SIZE))
}

// The offset is behind the head, and not past the end.
fn offset_ok(file: &[u8], at: OctetCount) -> bool
    ensures { result ≡ leb file_head_size at.0 && leb at.0 (length file.now) }
{
    (HEAD_SIZE <= at.0) & (at.0 <= file.len())
}

// 55, 54: the offset, where a field starts.
pub(crate) fn check_offset(file: &[u8], at: OctetCount) -> Result<OctetCount, Refusal>
    ensures { result ≡ stage_of (judge 0 (offset_checks file.now at.0) (Ok at.0)) }
{
    if !offset_ok(file, at) {
        return refuse(Refusal::OFFSET_INVALID);
    }
    if at.0 == file.len() {
        return refuse(Refusal::END_OF_FILE);
    }
    Ok(at)
}

// 52, 53, of the field at the front of the octets: the octets of its header.
pub fn check_header(octets: &[u8], version: Version) -> Result<OctetCount, Refusal>
    ensures { result ≡ stage_of (judge 0 (field_header_checks version octets.now) (Ok (field_header_size version))) }
{
    let header = header_size(version);
    if octets.len() < header {
        return refuse(Refusal::FIELD_HEADER_CUT);
    }
    if !f_ok(octets[F_AT]) {
        return refuse(Refusal::FILE_F_INVALID);
    }
    Ok(OctetCount(header))
}
