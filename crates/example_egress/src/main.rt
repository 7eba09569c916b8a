#![tactic(auto)]
// The story of version one (00): channel 3 pushes a caption reload, and the other channels offer one packet
// each. With the shared outlet the reload fills its own eight places and no others, and each channel is
// served in its turn. Every call and its answer is printed. Then the states that 64 refuses (`borders`).
mod borders;

use egress_spec::state::{CHANNELS, HandedOut, MEMORY, State};
use example_printing::{number, print, print_octets, print_refusal};
use std::io::Stdout;

// The channel that reloads.
const RELOADING: u8 = 3;

// Offers a packet of two octets, its channel and its number in that channel, and prints the answer.
fn offer(stdout: Stdout, state: State, channel: u8, packet: u8, memory: &mut [u8]) -> State {
    let octets = [channel, packet];
    number(stdout, b"offer ", channel as u64);
    print(stdout, b": ");
    let offered = egress::offer(state, channel, &octets, memory);
    let answer = offered.answer;
    match answer {
        Ok(()) => print(stdout, b"copied\n"),
        Err(refusal) => print_refusal(stdout, refusal),
    }
    offered.state
}

// Takes one packet and prints it.
fn take(stdout: Stdout, state: State, memory: &[u8]) -> State {
    let mut out = [0u8; 4];
    let taken = egress::take(state, memory, &mut out);
    print(stdout, b"take: ");
    let answer = taken.answer;
    match answer {
        Err(refusal) => print_refusal(stdout, refusal),
        Ok(HandedOut { channel, octets }) => {
            let n = octets.0;
            number(stdout, b"channel ", channel as u64);
            print(stdout, b" ");
            if n <= 4 {
                print_octets(stdout, &out[..n]);
            }
        }
    }
    taken.state
}

// One channel offers so many packets.
fn reload(stdout: Stdout, state: State, packets: u8, memory: &mut [u8]) -> State {
    let mut now = state;
    for k in 0..packets {
        now = offer(stdout, now, RELOADING, k, memory);
    }
    now
}

// Each of the channels offers one packet.
fn trickle(stdout: Stdout, state: State, memory: &mut [u8]) -> State {
    let mut now = state;
    for c in 0..CHANNELS {
        now = offer(stdout, now, c as u8, 0x80, memory);
    }
    now
}

// So many takes, the reload going on between them.
fn serve(stdout: Stdout, state: State, takes: u8, memory: &mut [u8]) -> State {
    let mut now = state;
    for k in 0..takes {
        now = take(stdout, now, memory);
        now = offer(stdout, now, RELOADING, k, memory);
    }
    now
}

fn main(rt: HostRuntime) {
    let stdout = rt.stdout();
    let mut memory = [0u8; MEMORY];
    let opened = egress::open();
    let full = reload(stdout, opened, 10, &mut memory);
    let waiting = trickle(stdout, full, &mut memory);
    serve(stdout, waiting, 10, &mut memory);
    take(stdout, egress::open(), &memory);
    borders::show(stdout, &memory);
}
