// A session: frames in order, the depacketizer that the first sound packet opens, and the text of each.
ghost use Rattle.std.specs.Prelude.{◌+◌, ◌*◌, ◌≤◌, not, ◌≡◌, leb, length};
ghost use Rattle.text.specs.Put.{Put};
ghost use Rattle.fieldlist_session.specs.Answers.{TextFits, fieldlist, text_after, text_of};
ghost use Rattle.fieldlist_session.specs.Answers.{entered_by, number_in, opening_by};
ghost use Rattle.program_spec.specs.Frames.{over_frames};
ghost use Rattle.program_spec.specs.Run.{Answers};
ghost use Rattle.rtp_frames.specs.Answers.{is_cut};
ghost use Rattle.rtp_frames.specs.Frames.{front, is_broken, max_frame};
ghost use Rattle.fieldlist_lines.specs.Room.{counts_room, line_room, roomy};
ghost use Rattle.fieldlist_records.specs.Records.{cell_room};
ghost use Rattle.fieldlist_session.specs.Session as listing;

use depacketizer::inspect::{Inspected, inspect};
use depacketizer::state::Depacketizer;
use fieldlist_lines::{put_answer, put_counts, put_refused};
use program_spec::buffers::Step;
use rtp_frames::{Front, LENGTH_SIZE, frame_at};
use text::put;
use wire_spec::layout::Layout;
use wire_spec::limit::MAX_FIELD_CELLS;
use wire_spec::refusal::{Refusal, refuse};

// Octets of the lines of a field's records, for each cell; and of any other line.
pub const CELL_ROOM: usize = 20;

pub const LINE_ROOM: usize = 160;

// Octets of what one packet can print, over a store of the cells that a field may have.
pub const FIELD_ROOM: usize = LINE_ROOM + CELL_ROOM * MAX_FIELD_CELLS;

// Waiting for the first packet that opens the depacketizer, or opened; all packets are in one layout.
#[derive(Clone, Copy)]
pub enum Session {
    Waiting(Layout),
    Open(Layout, Depacketizer),
}

// What is answered for the frame at the front, and the session then.
#[derive(Clone, Copy)]
pub struct Listed {
    pub session: Session,
    pub step: Step,
}

// The session after a packet, and the octets of its text.
#[derive(Clone, Copy)]
pub struct Reply {
    pub session: Session,
    pub length: usize,
}

fn number_of(inspected: Result<Inspected, Refusal>) -> u64
    ensures { result ≡ number_in inspected }
{
    match inspected {
        Ok(packet) => packet.summary.head.number.0 as u64,
        Err(_) => 0,
    }
}

// The first packet that passes 1 to 13, 15 and 16 opens the depacketizer.
fn opening(inspected: Result<Inspected, Refusal>) -> Result<Depacketizer, Refusal>
    ensures { result ≡ opening_by inspected }
{
    let packet = inspected?;
    Depacketizer::open(packet.summary.head.source, packet.summary.head.payload_type)
}

// The layout that packets are told.
pub fn layout_of(session: Session) -> Layout
    ensures { result ≡ listing.layout_in session }
{
    match session {
        Session::Waiting(layout) => layout,
        Session::Open(layout, _) => layout,
    }
}

// The depacketizer that a packet arrives at.
pub fn enter(
    session: Session,
    inspected: Result<Inspected, Refusal>,
) -> Result<Depacketizer, Refusal>
    ensures { result ≡ entered_by session inspected }
{
    match session {
        Session::Waiting(_) => opening(inspected),
        Session::Open(_, depacketizer) => Ok(depacketizer),
    }
}

fn list_packet(session: Session, octets: &[u8], store: &mut [u16], out: &mut [u8]) -> Reply
    requires { line_room + cell_room * length store.old ≤ length out.old }
    ensures session_value { result.session ≡ (listing.turn session octets.now store.old).session }
    ensures store_after { store.new ≡ (listing.turn session octets.now store.old).store }
    ensures put { Put out.old 0 (listing.turn session octets.now store.old).text out.new result.length }
{
    let layout = layout_of(session);
    let inspected = inspect(layout, octets);
    let number = number_of(inspected);
    let depacketizer = match enter(session, inspected) {
        Ok(depacketizer) => depacketizer,
        Err(refusal) => {
            let length = put_refused(out, refusal);
            return Reply { session, length };
        }
    };
    let arrival = depacketizer.arrive_checked(layout, octets, inspected, store);
    let answer = arrival.answer;
    let next = arrival.state;
    let length = put_answer(out, number, answer, store);
    Reply {
        session: Session::Open(layout, next),
        length,
    }
}

// Room for all that one packet can print, over a store of so many cells.
fn is_roomy(cells: usize, octets: usize) -> bool
    ensures { result ≡ roomy cells octets }
{
    if octets < LINE_ROOM {
        return false;
    }
    cells <= (octets - LINE_ROOM) / CELL_ROOM
}

// The frame at the front of the octets: its packet arrives, and its text goes to the first octets of `out`.
pub fn list_frame(session: Session, octets: &[u8], store: &mut [u16], out: &mut [u8]) -> Listed
    ensures { Answers (over_frames fieldlist) max_frame (session, store.old) octets.now out.old result.step (result.session, store.new) out.new }
{
    if !is_roomy(store.len(), out.len()) {
        return Listed {
            session,
            step: Step::Refused(Refusal {
                number: Refusal::ROOM_TOO_SMALL,
                index: 0,
            }),
        };
    }
    let front = frame_at(octets);
    match front {
        Front::End => Listed {
            session,
            step: Step::Short,
        },
        Front::Cut => Listed {
            session,
            step: Step::Short,
        },
        Front::Packet(size) => {
            let end = LENGTH_SIZE + size;
            let reply = list_packet(session, &octets[LENGTH_SIZE..end], store, out);
            let next = reply.session;
            Listed {
                session: next,
                step: Step::Taken {
                    used: end,
                    length: reply.length,
                },
            }
        }
    }
}

// The first line.
pub fn begin(out: &mut [u8]) -> Result<usize, Refusal>
    ensures value { result ≡ text_of (leb line_room (length out.old)) listing.title }
    ensures out_after { out.new ≡ text_after (leb line_room (length out.old)) listing.title out.old }
    ensures text_fits { TextFits result (length out.old) }
{
    if out.len() < LINE_ROOM {
        return refuse(Refusal::ROOM_TOO_SMALL);
    }
    Ok(put(out, 0, b"fieldlist 1\n"))
}

fn put_cut(out: &mut [u8], here: Front) -> usize
    requires { line_room ≤ length out.old }
    ensures put { Put out.old 0 (listing.cut_text (is_cut here)) out.new result }
    ensures upper_bound { result ≤ 4 }
{
    match here {
        Front::Cut => put(out, 0, b"cut\n"),
        Front::End => 0,
        Front::Packet(_) => 0,
    }
}

fn put_counts_of(out: &mut [u8], at: usize, session: Session) -> usize
    requires { at + counts_room ≤ length out.old }
    ensures { Put out.old at (listing.counts_of session) out.new result }
{
    match session {
        Session::Waiting(_) => put_counts(out, at, 0, 0, 0),
        Session::Open(_, depacketizer) => {
            let state = depacketizer.state;
            put_counts(out, at, state.fresh, state.late, state.missing)
        }
    }
}

// The last lines; `rest` is what is left of the input behind its whole frames.
pub fn finish(session: Session, rest: &[u8], out: &mut [u8]) -> Result<usize, Refusal>
    ensures value { result ≡ text_of (leb line_room (length out.old)) (listing.end_text (is_broken (front rest.now)) session) }
    ensures out_after { out.new ≡ text_after (leb line_room (length out.old)) (listing.end_text (is_broken (front rest.now)) session) out.old }
    ensures text_fits { TextFits result (length out.old) }
{
    if out.len() < LINE_ROOM {
        return refuse(Refusal::ROOM_TOO_SMALL);
    }
    let next = put_cut(out, frame_at(rest));
    Ok(put_counts_of(out, next, session))
}
