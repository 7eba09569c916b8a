#![tactic(auto)]
// One item of a capture, and the frame (RFC 4571) of the UDP datagram that it holds for a port. The functions that put a frame ask for room for any, and that
// one packet more can be counted.
ghost use Rattle.std.specs.Prelude.{◌≡◌, ◌+◌, ◌≤◌, length};
ghost use Rattle.text.specs.Put.{Put};
ghost use Rattle.wire_spec.specs.Packet.{max_packet};
ghost use Rattle.rtp_frames.specs.Frames.{length_size, max_frame};
ghost use Rattle.capture_spec.specs.Step as capture;
ghost use Rattle.pcapframes_spec.specs.Frames.{frame_of};
ghost use Rattle.pcapframes_spec.specs.Session.{CanCount, Countable, FoundFits, begun, counted, found_front, frame_walk, is_whole, item_front, last_of, moved, out_after, packet_front, refused_by, reply_of};
ghost use Rattle.capture_spec.specs.Numbers.{max_item};
ghost use Rattle.program_spec.specs.Run.{Answers};

pub mod told;

use capture_datagram::answer::Found;
use capture_datagram::find;
use capture_datagram::link::is_link_taken;
use capture_spec::format::{CAPTURE_CUT, LINK_NOT_TAKEN};
use capture_spec::state::{Container, Item, Unread};
use capture_step::{item_at, next_state};
use pcapframes_spec::session::{Reply, Session};
use program_spec::buffers::Step;
use rtp_frames::MAX_FRAME;
use text::put;
use wire_spec::refusal::Refusal;

// Before the first octet.
pub fn begin() -> Session
    ensures { result ≡ begun }
{
    Session {
        state: capture_step::begin(),
        refusal: None,
        packets: 0,
        fragments: 0,
        cut: 0,
    }
}

// RFC 4571, section 2: LENGTH, and the datagram's payload.
fn put_frame(payload: &[u8], out: &mut [u8]) -> usize
    requires { (length payload.now ≤ max_packet) × (length_size + length payload.now ≤ length out.old) }
    ensures { Put out.old 0 (frame_of payload.now) out.new result }
{
    let n = payload.len();
    let length = [(n / 256) as u8, (n % 256) as u8];
    let at = put(out, 0, &length);
    put(out, at, payload)
}

// One packet more.
fn count(session: Session, fragments: u64, cut: u64) -> Session
    requires { CanCount session fragments cut }
    ensures { result ≡ counted session fragments cut }
{
    let state = session.state;
    Session {
        state,
        refusal: None,
        packets: session.packets + 1,
        fragments: session.fragments + fragments,
        cut: session.cut + cut,
    }
}

fn refuse(session: Session, number: u8) -> Session
    ensures { result ≡ refused_by session number }
{
    let state = session.state;
    Session {
        state,
        refusal: Some(number),
        packets: session.packets,
        fragments: session.fragments,
        cut: session.cut,
    }
}

// Behind an item that is no packet.
fn pass(session: Session, item: Result<Item, Unread>, used: usize) -> Reply
    ensures { result ≡ record { session = moved session (capture.behind session.state item); step = Step.Taken used 0 } }
{
    let state = session.state;
    Reply {
        session: Session {
            state: next_state(state, item),
            refusal: None,
            packets: session.packets,
            fragments: session.fragments,
            cut: session.cut,
        },
        step: Step::Taken { used, length: 0 },
    }
}

// What a packet holds for the port.
fn take_found(session: Session, used: usize, packet: &[u8], found: Found, out: &mut [u8]) -> Reply
    requires { Countable session × FoundFits found (length packet.now) (length out.old) }
    ensures value { result ≡ reply_of session (found_front session used packet.now found) }
    ensures out_after { out.new ≡ out_after (found_front session used packet.now found) out.old }
{
    match found {
        Found::Frame { start, end } => {
            let length = put_frame(&packet[start..end], out);
            Reply {
                session: count(session, 0, 0),
                step: Step::Taken { used, length },
            }
        }
        Found::Passed => Reply {
            session: count(session, 0, 0),
            step: Step::Taken { used, length: 0 },
        },
        Found::Fragment => Reply {
            session: count(session, 1, 0),
            step: Step::Taken { used, length: 0 },
        },
        Found::Cut => Reply {
            session: count(session, 0, 1),
            step: Step::Taken { used, length: 0 },
        },
    }
}

// A packet of this link type.
fn take_packet(
    port: u16,
    session: Session,
    used: usize,
    link: u32,
    packet: &[u8],
    out: &mut [u8],
) -> Reply
    requires { Countable session × (max_frame ≤ length out.old) }
    ensures value { result ≡ reply_of session (packet_front port session used link packet.now) }
    ensures out_after { out.new ≡ out_after (packet_front port session used link packet.now) out.old }
{
    if !is_link_taken(link) {
        return Reply {
            session: refuse(session, LINK_NOT_TAKEN),
            step: Step::Over,
        };
    }
    take_found(session, used, packet, find(packet, link, port), out)
}

fn take_open(port: u16, session: Session, octets: &[u8], out: &mut [u8]) -> Reply
    requires { Countable session × (max_frame ≤ length out.old) }
    ensures value { result ≡ reply_of session (item_front port session octets.now (capture.step_of session.state octets.now)) }
    ensures out_after { out.new ≡ out_after (item_front port session octets.now (capture.step_of session.state octets.now)) out.old }
{
    let state = session.state;
    let item = item_at(state, octets);
    match item {
        Err(unread) => match unread {
            Unread::Short => Reply {
                session,
                step: Step::Short,
            },
            Unread::Refused(number) => Reply {
                session: refuse(session, number),
                step: Step::Over,
            },
        },
        Ok(read) => match read {
            Item::Head { container: _, used } => pass(session, item, used),
            Item::Interface {
                link: _,
                snap: _,
                used,
            } => pass(session, item, used),
            Item::Packet { place, used } => {
                let at = place.at;
                let end = at + place.size;
                take_packet(port, session, used, place.link, &octets[at..end], out)
            }
            Item::Other(used) => pass(session, item, used),
        },
    }
}

// The item at the front, unless the walk is over, where there is room for any frame.
pub fn take_item(port: u16, session: Session, octets: &[u8], out: &mut [u8]) -> Reply
    requires { Countable session }
    ensures { Answers (frame_walk port) max_item session octets.now out.old result.step result.session out.new }
{
    if out.len() < MAX_FRAME {
        return Reply {
            session,
            step: Step::Refused(Refusal {
                number: Refusal::ROOM_TOO_SMALL,
                index: 0,
            }),
        };
    }
    let refusal = session.refusal;
    match refusal {
        Some(_) => Reply {
            session,
            step: Step::Over,
        },
        None => take_open(port, session, octets, out),
    }
}

fn is_whole(container: Container, left: usize) -> bool
    ensures { result ≡ is_whole container left }
{
    match container {
        Container::Unknown => false,
        Container::Classic { order: _, link: _ } => left == 0,
        Container::Section(_) => left == 0,
    }
}

// Where the octets end, with so many left.
pub fn finish(session: Session, left: usize) -> Session
    ensures { result ≡ last_of session left }
{
    let refusal = session.refusal;
    match refusal {
        Some(_) => session,
        None => {
            let state = session.state;
            let container = state.container;
            if is_whole(container, left) {
                return session;
            }
            refuse(session, CAPTURE_CUT)
        }
    }
}
