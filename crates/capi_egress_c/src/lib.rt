#![tactic(auto)]
// What C calls of the shared outlet (include/jibhotran.h): the functions of capi_egress under their C names.
ghost use Rattle.std.specs.Prelude.{◌≡◌};
ghost use Rattle.wire_spec.specs.Bits.{overwrite};
ghost use Rattle.capi_egress.specs.Calls.{offer, open_number, open_numbers, take};

// The state of an outlet that holds nothing.
#[unsafe(no_mangle)]
pub extern "C" fn jibhotran_outlet_open(state: &mut [u64]) -> u8
    ensures value { result ≡ open_number state.old }
    ensures state_after { state.new ≡ overwrite (open_numbers state.old) state.old }
{
    capi_egress::jibhotran_outlet_open(state)
}

// Copies a packet into the memory, behind its channel's last.
#[unsafe(no_mangle)]
pub extern "C" fn jibhotran_outlet_offer(
    state: &mut [u64],
    channel: u8,
    packet: &[u8],
    memory: &mut [u8],
    answer: &mut [u64],
) -> u8
    ensures value { result ≡ (offer state.old channel packet.now memory.old answer.old).reply.number }
    ensures state_after { state.new ≡ overwrite (offer state.old channel packet.now memory.old answer.old).numbers state.old }
    ensures memory_after { memory.new ≡ (offer state.old channel packet.now memory.old answer.old).lent }
    ensures answer_after { answer.new ≡ overwrite (offer state.old channel packet.now memory.old answer.old).reply.row answer.old }
{
    capi_egress::jibhotran_outlet_offer(state, channel, packet, memory, answer)
}

// Hands out the packet whose turn it is, to the first octets of `out`.
#[unsafe(no_mangle)]
pub extern "C" fn jibhotran_outlet_take(
    state: &mut [u64],
    memory: &[u8],
    out: &mut [u8],
    answer: &mut [u64],
) -> u8
    ensures value { result ≡ (take state.old memory.now out.old answer.old).reply.number }
    ensures state_after { state.new ≡ overwrite (take state.old memory.now out.old answer.old).numbers state.old }
    ensures out_after { out.new ≡ (take state.old memory.now out.old answer.old).lent }
    ensures answer_after { answer.new ≡ overwrite (take state.old memory.now out.old answer.old).reply.row answer.old }
{
    capi_egress::jibhotran_outlet_take(state, memory, out, answer)
}
