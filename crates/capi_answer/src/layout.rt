// The layouts' numbers (02, K3: "Which layout applies is told by the caller").
ghost use Rattle.std.specs.Prelude.{◌≡◌};
ghost use Rattle.capi_answer.specs.Rows.{layout_of};

use wire_spec::layout::Layout;

// RFC 8331's layout, and the largest of the numbers: that of its drafts of 2015.
const RFC_8331: u8 = 0;

pub const LAST_LAYOUT: u8 = 1;

pub fn layout_of(number: u8) -> Layout
    ensures { result ≡ layout_of number }
{
    if number == RFC_8331 {
        Layout::Rfc8331
    } else {
        Layout::Draft2015
    }
}
