// A text filled anew for each line.
ghost use Rattle.std.specs.Prelude.{◌≡◌, OnOk, IfSome, string_bytes};

use std::alloc::AllocError;
use std::fmt;

// Leaves in a text just what a value prints. It is lent the text, so that one serves for all lines.
pub fn fill<T: fmt::Display>(text: &mut String, value: &T) -> Result<(), AllocError>
    ensures { OnOk result (IfSome (T.output value.now) (λ printed. string_bytes text.new ≡ printed)) }
{
    text.clear();
    write!(text, "{value}")
}
