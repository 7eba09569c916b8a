#![tactic(auto)]
// The lines of `streamcheck` (02, K12): each function puts them to the octets that it is lent, and asks for the room that they can take.
ghost use Rattle.std.specs.Prelude.{◌+◌, ◌≤◌, cond, [], ◌++◌, ◌≡◌, length};
ghost use Rattle.text.specs.Put.{Put};
ghost use Rattle.text.specs.Text.{decimal, decimal_most};
ghost use Rattle.streamcheck_spec.specs.Check.{entries};
ghost use Rattle.streamcheck_spec.specs.Code.{findings_in};
ghost use Rattle.streamcheck_spec.specs.Text.{line_text, report_text};
ghost use Rattle.streamcheck_spec.specs.declared.finding.Finding.TheVariants as finding;
ghost use Rattle.streamcheck_lines.specs.Lines.{findings_text, lines_room};

use streamcheck_spec::checker::Findings;
use text::{put, put_decimal, put_labelled, put_numbered};
use wire_spec::refusal::Refusal;

// The index and a word, where the test holds.
pub fn put_if(out: &mut [u8], at: usize, test: bool, index: u64, word: &[u8]) -> usize
    requires { at + decimal_most + length word.now ≤ length out.old }
    ensures put { Put out.old at (cond test (decimal index ++ word.now) []) out.new result }
    ensures upper_bound { result ≤ at + decimal_most + length word.now }
{
    if test {
        return put_numbered(out, at, index, word);
    }
    at
}

// `1 number`, `1 change`, `1 reserved`, `1 raster`
fn put_findings(out: &mut [u8], index: u64, findings: Findings) -> usize
    requires { lines_room ≤ length out.old }
    ensures { Put out.old 0 (findings_text index findings) out.new result }
{
    let next = put_if(out, 0, findings.number, index, b" number\n");
    let next = put_if(out, next, findings.change, index, b" change\n");
    let next = put_if(out, next, findings.reserved, index, b" reserved\n");
    put_if(out, next, findings.raster, index, b" raster\n")
}

// `1 refused 11 0`
fn put_refused(out: &mut [u8], index: u64, refusal: Refusal) -> usize
    requires { lines_room ≤ length out.old }
    ensures { Put out.old 0 (line_text index (finding.Refused refusal)) out.new result }
{
    let next = put_decimal(out, 0, index);
    let next = put_labelled(out, next, b" refused ", refusal.number as u64);
    let next = put_labelled(out, next, b" ", refusal.index as u64);
    put(out, next, b"\n")
}

// The lines of a packet with this index.
pub fn put_outcome(out: &mut [u8], index: u64, outcome: Result<Findings, Refusal>) -> usize
    requires { lines_room ≤ length out.old }
    ensures { Put out.old 0 (report_text (entries index (findings_in outcome))) out.new result }
{
    match outcome {
        Err(refusal) => put_refused(out, index, refusal),
        Ok(findings) => put_findings(out, index, findings),
    }
}
