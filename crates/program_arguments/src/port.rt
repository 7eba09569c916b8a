// A UDP port, read from its decimal digits.
ghost use Rattle.std.specs.Prelude.{◌≡◌, ◌≤◌};
ghost use Rattle.program_arguments.specs.Port.{max_port, next_value, port_of};

// RFC 768: a port has 16 bits.
const MAX_PORT: u32 = 65535;

// A value that is none.
const NO_PORT: u32 = MAX_PORT + 1;

// The value with one digit more; what is no digit gives none.
fn next_value(value: u32, digit: u8) -> u32
    requires { value ≤ max_port }
    ensures { result ≡ next_value value digit }
{
    if !digit.is_ascii_digit() {
        return NO_PORT;
    }
    value * 10 + u32::from(digit - b'0')
}

// A port from 1 to 65,535; a word that is none gives `None`.
pub fn port_of(word: &[u8]) -> Option<u16>
    ensures { result ≡ port_of word.now }
{
    let mut value = 0;
    for digit in word {
        value = next_value(value, *digit);
        if value > MAX_PORT {
            return None;
        }
    }
    if value == 0 {
        return None;
    }
    Some(value as u16)
}
