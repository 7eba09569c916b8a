// The octets at hand: what is left of them goes to the front, so that more can be read after them.
ghost use Rattle.std.specs.Prelude.{◌≡◌, ◌≤◌, drop, length};
ghost use Rattle.wire_spec.specs.Bits.{overwrite};

// Moves the octets from `at` on to the front; `at` must lie within them. If all are left, none is moved: a
// long item that arrives octet by octet would otherwise be copied at every read.
pub fn move_to_front(octets: &mut [u8], at: usize)
    requires { at ≤ length octets.old }
    ensures { octets.new ≡ overwrite (drop at octets.old) octets.old }
{
    if at == 0 {
        return;
    }
    octets.copy_within(at.., 0);
}
