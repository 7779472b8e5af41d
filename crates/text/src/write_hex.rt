// Numbers written in hexadecimal: high digit first, with capital letters.
ghost use Rattle.std.specs.Prelude.{◌≡◌, ◌/◌, ◌%◌, ◌^◌, [], ◌∷◌};
ghost use Rattle.text.specs.Hexadecimal.{hex_digit, hex};

// The digit of a number that so many others stand behind.
pub(crate) fn digit_at(number: u64, place: usize) -> &'static str
    ensures { result.now ≡ hex_digit (number / 16 ^ place % 16) ∷ [] }
{
    let rest = if place < 16 { number >> (4 * place) } else { 0 };
    let digit = (rest % 16) as usize;
    &"0123456789ABCDEF"[digit..digit + 1]
}

// The last digits of a number. Beside `Hex`, which prints them, since this cannot fail and needs no formatter; `Hex` does not
// call it, since an array of any length in a generic function has to be shown to fit in memory.
#[tactic(auto, using(crate::proofs::Writing::writing))]
pub fn hex<const DIGITS: usize>(number: u64) -> [u8; DIGITS]
    ensures { result ≡ hex DIGITS number }
{
    let mut digits = [0; DIGITS];
    // By index: tried with `iter_mut().rev()`, after which a proof knows nothing of what was written, and with
    // `array::from_fn`, whose closure does not know that its place is below `DIGITS`.
    for place in 0..DIGITS {
        digits[DIGITS - 1 - place] = digit_at(number, place).as_bytes()[0];
    }
    digits
}
