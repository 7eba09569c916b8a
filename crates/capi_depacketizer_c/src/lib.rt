#![tactic(auto)]
// What C calls of the depacketizer (include/jibhotran.h): the functions of capi_depacketizer under their C names.
ghost use Rattle.capi_depacketizer.specs.Calls.{arrive, open_numbers, open_reply, state_arrived, state_opened};
ghost use Rattle.capi_state.specs.State.{state_in};
ghost use Rattle.wire_spec.specs.Bits.{overwrite};
ghost use Rattle.std.specs.Prelude.{◌≡◌};

// The state of a depacketizer just opened.
#[unsafe(no_mangle)]
pub extern "C" fn jibhotran_open(
    source: u32,
    payload_type: u8,
    state: &mut [u64],
    answer: &mut [u64],
) -> u8
    ensures value { result ≡ (open_reply source payload_type state.old answer.old).number }
    ensures state_after { state.new ≡ overwrite (open_numbers source payload_type state.old answer.old) state.old }
    ensures answer_after { answer.new ≡ overwrite (open_reply source payload_type state.old answer.old).row answer.old }
    ensures state_after_2 { state_in state.new ≡ state_opened source payload_type state.old answer.old }
{
    capi_depacketizer::arrival::jibhotran_open(source, payload_type, state, answer)
}

// One arrival: the next state, the field's cells in the store, and what became of the packet.
#[unsafe(no_mangle)]
pub extern "C" fn jibhotran_arrive(
    layout: u8,
    state: &mut [u64],
    octets: &[u8],
    store: &mut [u16],
    answer: &mut [u64],
) -> u8
    ensures value { result ≡ (arrive layout state.old octets.now store.old answer.old).reply.number }
    ensures state_after { state.new ≡ overwrite (arrive layout state.old octets.now store.old answer.old).numbers state.old }
    ensures store_after { store.new ≡ (arrive layout state.old octets.now store.old answer.old).store }
    ensures answer_after { answer.new ≡ overwrite (arrive layout state.old octets.now store.old answer.old).reply.row answer.old }
    ensures state_after_2 { state_in state.new ≡ state_arrived layout state.old octets.now store.old answer.old }
{
    capi_depacketizer::arrival::jibhotran_arrive(layout, state, octets, store, answer)
}
