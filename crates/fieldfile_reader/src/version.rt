// What differs between the versions of a file (02, K2).
ghost use Rattle.std.specs.Prelude.{◌≡◌, ◌≤◌, length};
ghost use Rattle.fieldfile_spec.specs.File.{count_field, field_header_size, file_head_size, version_of};

use fieldfile_spec::format::{
    COUNT_AT, HEADER_SIZE_1, HEADER_SIZE_2, NAME_SIZE, VERSION_1, Version,
};
use wire_words::octet::pair_at;

// Octets of a field's header.
pub(crate) fn header_size(version: Version) -> usize
    ensures { result ≡ field_header_size version }
{
    match version {
        Version::One => HEADER_SIZE_1,
        Version::Two => HEADER_SIZE_2,
    }
}

// The version of a file whose head passed.
pub fn version_at(file: &[u8]) -> Version
    requires { file_head_size ≤ length file.now }
    ensures { result ≡ version_of file.now }
{
    if pair_at(file, NAME_SIZE) == VERSION_1 {
        Version::One
    } else {
        Version::Two
    }
}

// The count in the header of a field: one octet or two.
pub fn count_at(octets: &[u8], version: Version) -> usize
    requires { field_header_size version ≤ length octets.now }
    ensures { result ≡ count_field version octets.now }
{
    match version {
        Version::One => octets[COUNT_AT] as usize,
        Version::Two => pair_at(octets, COUNT_AT),
    }
}
