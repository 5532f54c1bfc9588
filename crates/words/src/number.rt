// Numbers of one to eight decimal digits.
ghost use Rattle.std.specs.Prelude.{◌≡◌, ◌^◌, ◌<◌, ◌≤◌, length, IfSome};
ghost use Rattle.words.specs.Numbers.{number_of, read_on};

const MOST_DIGITS: usize = 8;

// Eight digits fit every integer type of 32 bits.
pub fn read_number(word: &[u8]) -> Option<u32>
    ensures answer { result ≡ number_of word.now }
    ensures bound { IfSome result (λ n. n < 10 ^ 8) }
{
    if word.is_empty() || word.len() > MOST_DIGITS {
        return None;
    }
    read_digits(word)
}

#[tactic(auto, using(crate::proofs::Numbers::eight_digits_fit))]
fn read_digits(digits: &[u8]) -> Option<u32>
    requires { length digits.now ≤ 8 }
    ensures answer { result ≡ read_on 0 digits.now }
    ensures bound { IfSome result (λ n. n < 10 ^ 8) }
{
    // A loop: in a fold nothing bounds the value that the closure is given.
    let mut value = 0;
    for byte in digits {
        let digit = char::from(*byte).to_digit(10)?;
        value = value * 10 + digit;
    }
    Some(value)
}
