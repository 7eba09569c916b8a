// A session: frames in order, what is carried from packet to packet, and the lines of each.
ghost use Rattle.std.specs.Prelude.{◌+◌, ◌^◌, ◌<◌, ◌≤◌, ◌≡◌, leb, length};
ghost use Rattle.wire_spec.specs.Packet.{max_packet, read_content};
ghost use Rattle.rtp_strict_reader.specs.Answers.{cells_after};
ghost use Rattle.text.specs.Put.{Put};
ghost use Rattle.rtp_frames.specs.Answers.{is_cut};
ghost use Rattle.rtp_frames.specs.Frames.{front, is_broken, max_frame};
ghost use Rattle.streamcheck_spec.specs.Code.{turn};
ghost use Rattle.streamcheck_lines.specs.Lines.{cut_text, lines_room};
ghost use Rattle.streamcheck_session.specs.Answers.{TextFits, begun, cells_then, counted, packet_text, roomy, streamcheck, text_after, text_of};
ghost use Rattle.program_spec.specs.Frames.{over_frames};
ghost use Rattle.program_spec.specs.Run.{Answers};

use program_spec::buffers::Step;
use rtp_frames::{Front, LENGTH_SIZE, frame_at};
use streamcheck_lines::{put_if, put_outcome};
use streamcheck_spec::checker::Checker;
use streamcheck_step::packet::check_packet;
use streamcheck_step::step::open;
use wire_spec::layout::Layout;
use wire_spec::limit::MAX_PACKET;
use wire_spec::refusal::{Refusal, refuse};

// Octets of the lines of one packet.
pub const LINES_ROOM: usize = 120;

// All packets are in one layout; the index is that of the next frame.
#[derive(Clone, Copy)]
pub struct Session {
    pub layout: Layout,
    pub index: u64,
    pub checker: Checker,
}

// What is answered for the frame at the front, and the session then.
#[derive(Clone, Copy)]
pub struct Reported {
    pub session: Session,
    pub step: Step,
}

// The state behind a packet, and the octets of its lines.
#[derive(Clone, Copy)]
pub struct Reply {
    pub checker: Checker,
    pub length: usize,
}

// Before the first frame, packets being told this layout.
pub fn begin(layout: Layout) -> Session
    ensures { result ≡ begun layout }
{
    Session {
        layout,
        index: 0,
        checker: open(),
    }
}

// Whether there is room for any packet's records and its lines, and the frame can be counted.
fn is_roomy(cells: usize, octets: usize, index: u64) -> bool
    ensures { result ≡ roomy (leb max_packet cells) octets index }
{
    (MAX_PACKET <= cells) & ((LINES_ROOM <= octets) & (index < u64::MAX))
}

fn report_packet(session: Session, octets: &[u8], cells: &mut [u16], out: &mut [u8]) -> Reply
    requires { (max_packet ≤ length cells.old) × (lines_room ≤ length out.old) }
    ensures checker_value { result.checker ≡ (turn session.layout session.checker octets.now).checker }
    ensures cells_after { cells.new ≡ cells_after (read_content session.layout octets.now) cells.old }
    ensures put { Put out.old 0 (packet_text session octets.now) out.new result.length }
{
    let layout = session.layout;
    let checker = session.checker;
    let step = check_packet(layout, checker, octets, cells);
    let outcome = step.outcome;
    let next = step.checker;
    let length = put_outcome(out, session.index, outcome);
    Reply {
        checker: next,
        length,
    }
}

// Behind a frame.
fn count(session: Session, checker: Checker) -> Session
    requires { session.index + 1 < 2 ^ 64 }
    ensures { result ≡ counted session checker }
{
    let layout = session.layout;
    Session {
        layout,
        index: session.index + 1,
        checker,
    }
}

// The frame at the front of the octets: its packet is checked, and its lines go to the first octets of `out`.
pub fn check_frame(session: Session, octets: &[u8], cells: &mut [u16], out: &mut [u8]) -> Reported
    ensures answers { Answers (over_frames (streamcheck (leb max_packet (length cells.old)))) max_frame session octets.now out.old result.step result.session out.new }
    ensures cells_after { cells.new ≡ cells_then (roomy (leb max_packet (length cells.old)) (length out.old) session.index) session (front octets.now) cells.old }
{
    if !is_roomy(cells.len(), out.len(), session.index) {
        return Reported {
            session,
            step: Step::Refused(Refusal {
                number: Refusal::ROOM_TOO_SMALL,
                index: 0,
            }),
        };
    }
    let front = frame_at(octets);
    match front {
        Front::End => Reported {
            session,
            step: Step::Short,
        },
        Front::Cut => Reported {
            session,
            step: Step::Short,
        },
        Front::Packet(size) => {
            let end = LENGTH_SIZE + size;
            let reply = report_packet(session, &octets[LENGTH_SIZE..end], cells, out);
            let next = reply.checker;
            Reported {
                session: count(session, next),
                step: Step::Taken {
                    used: end,
                    length: reply.length,
                },
            }
        }
    }
}

fn is_cut(here: Front) -> bool
    ensures { result ≡ is_cut here }
{
    match here {
        Front::Cut => true,
        Front::End => false,
        Front::Packet(_) => false,
    }
}

// The last line, where the frame there is cut; `rest` is what is left of the input behind its whole frames.
pub fn finish(index: u64, rest: &[u8], out: &mut [u8]) -> Result<usize, Refusal>
    ensures value { result ≡ text_of (leb lines_room (length out.old)) (cut_text (is_broken (front rest.now)) index) }
    ensures out_after { out.new ≡ text_after (leb lines_room (length out.old)) (cut_text (is_broken (front rest.now)) index) out.old }
    ensures text_fits { TextFits result (length out.old) }
{
    if out.len() < LINES_ROOM {
        return refuse(Refusal::ROOM_TOO_SMALL);
    }
    let broken = is_cut(frame_at(rest));
    Ok(put_if(out, 0, broken, index, b" cut\n"))
}
