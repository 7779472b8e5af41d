// Numbers read in hexadecimal.
ghost use Rattle.std.specs.Prelude.{◌≡◌, ◌≤◌, length};
ghost use Rattle.text.specs.Hexadecimal.{digit_value, number_written, without_prefix, hex_value};

fn digit_value(character: u8) -> Option<u32>
    ensures { result ≡ digit_value character }
{
    char::from(character).to_digit(16)
}

fn without_prefix(text: &[u8]) -> &[u8]
    ensures { result.now ≡ without_prefix text.now }
{
    text.strip_prefix(b"0x").unwrap_or(text)
}

#[tactic(auto, using(crate::proofs::Reading::reading))]
fn number_written(digits: &[u8]) -> Option<u64>
    requires { length digits.now ≤ 16 }
    ensures { result ≡ number_written digits.now }
{
    // A `for`: that sixteen digits fit is known by how many came, which the closure of a `try_fold` does not see.
    let mut number = 0u64;
    for digit in digits {
        let value = digit_value(*digit)?;
        number = number * 16 + u64::from(value);
    }
    Some(number)
}

// The number that hexadecimal digits write, with or without `0x` in front of them. `u64::from_str_radix` takes a sign too.
pub fn hex_value(text: &[u8]) -> Option<u64>
    ensures { result ≡ hex_value text.now }
{
    let digits = without_prefix(text);
    match digits.len() {
        1..=16 => number_written(digits),
        _ => None,
    }
}
