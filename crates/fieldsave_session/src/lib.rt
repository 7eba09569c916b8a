#![tactic(auto)]
// What `fieldsave` files: frames, and the whole fields that their packets give, as a field file (01, "Field file").
//
// `fieldfile_writer::begin` and `file_frame` are the entry points. The session is that of `fieldlist_session`.
ghost use Rattle.std.specs.Prelude.{◌≡◌, ◌≤◌, min, length};
ghost use Rattle.rtp_frames.specs.Frames.{max_frame};
ghost use Rattle.text.specs.Put.{Put};
ghost use Rattle.fieldfile_spec.specs.File.{fields_octets, written_version};
ghost use Rattle.fieldlist_session.specs.Session.{turn};
ghost use Rattle.fieldsave_session.specs.Answers.{fieldsave, octets_in};
ghost use Rattle.program_spec.specs.Frames.{over_frames};
ghost use Rattle.program_spec.specs.Run.{Answers};
ghost use Rattle.fieldsave_session.specs.Filing.{field_in, field_room, filed, handed_by};

use depacketizer::inspect::inspect;
use depacketizer_spec::state::{Answer, Field};
use fieldfile_spec::format::HEADER_SIZE_2;
use fieldfile_writer::write_field;
use fieldlist_session::session::{Listed, Reply, Session, enter, layout_of};
use program_spec::buffers::Step;
use rtp_frames::{Front, LENGTH_SIZE, frame_at};
use wire_spec::count::OctetCount;
use wire_spec::limit::MAX_FIELD_CELLS;
use wire_spec::refusal::Refusal;

// Octets that any field fits in.
pub const FIELD_ROOM: usize = HEADER_SIZE_2 + 3 * MAX_FIELD_CELLS / 2;

fn least(a: usize, b: usize) -> usize
    ensures { result ≡ min a b }
{
    if a < b { a } else { b }
}

// The octets that were written.
pub fn octets_of(written: Result<OctetCount, Refusal>) -> usize
    ensures { result ≡ octets_in written }
{
    match written {
        Ok(octets) => octets.0,
        Err(_) => 0,
    }
}

// The field, where the file takes it.
fn put_field(field: Field, store: &[u16], out: &mut [u8]) -> usize
    requires { field_room ≤ length out.old }
    ensures { Put out.old 0 (fields_octets written_version (field_in field store.now)) out.new result }
{
    let timestamp = field.timestamp;
    let end = least(field.cells, store.len());
    octets_of(write_field(timestamp, field.f, &store[..end], out))
}

// The field that an answer hands out.
fn put_answer(answer: Answer, store: &[u16], out: &mut [u8]) -> usize
    requires { field_room ≤ length out.old }
    ensures { Put out.old 0 (fields_octets written_version (handed_by answer store.now)) out.new result }
{
    match answer {
        Answer::Whole(field) => put_field(field, store, out),
        Answer::Skipped => 0,
        Answer::Held => 0,
        Answer::Mixed => 0,
        Answer::Overfull => 0,
        Answer::Refused(_) => 0,
    }
}

fn file_packet(session: Session, octets: &[u8], store: &mut [u16], out: &mut [u8]) -> Reply
    requires { field_room ≤ length out.old }
    ensures session_value { result.session ≡ (turn session octets.now store.old).session }
    ensures store_after { store.new ≡ (turn session octets.now store.old).store }
    ensures put { Put out.old 0 (filed session octets.now store.old) out.new result.length }
{
    let layout = layout_of(session);
    let inspected = inspect(layout, octets);
    let Ok(depacketizer) = enter(session, inspected) else {
        return Reply { session, length: 0 };
    };
    let arrival = depacketizer.arrive_checked(layout, octets, inspected, store);
    let answer = arrival.answer;
    let next = arrival.state;
    let length = put_answer(answer, store, out);
    Reply {
        session: Session::Open(layout, next),
        length,
    }
}

// The frame at the front of the octets: its packet arrives, and the field that it completes goes to the first octets of `out`.
pub fn file_frame(session: Session, octets: &[u8], store: &mut [u16], out: &mut [u8]) -> Listed
    ensures { Answers (over_frames fieldsave) max_frame (session, store.old) octets.now out.old result.step (result.session, store.new) out.new }
{
    if out.len() < FIELD_ROOM {
        return Listed {
            session,
            step: Step::Refused(Refusal {
                number: Refusal::ROOM_TOO_SMALL,
                index: 0,
            }),
        };
    }
    let front = frame_at(octets);
    match front {
        Front::End => Listed {
            session,
            step: Step::Short,
        },
        Front::Cut => Listed {
            session,
            step: Step::Short,
        },
        Front::Packet(size) => {
            let end = LENGTH_SIZE + size;
            let reply = file_packet(session, &octets[LENGTH_SIZE..end], store, out);
            let next = reply.session;
            Listed {
                session: next,
                step: Step::Taken {
                    used: end,
                    length: reply.length,
                },
            }
        }
    }
}
