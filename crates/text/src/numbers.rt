//! Numbers in a text.

ghost use Rattle.std.specs.Prelude.{◌≡◌, ◌<◌, ◌≤◌, length, take_while, drop, IfOk};
ghost use Rattle.std.specs.Char.{is_ascii_digit};
ghost use Rattle.text.specs.Numbers.{most, numeral};

/// What stands at a place is not of the form that it should have.
#[derive(Clone, Copy)]
pub struct Malformed;

/// How many decimal digits a number may have.
#[derive(Clone, Copy)]
pub enum Digits {
    Seven,
    Ten,
}

impl Digits {
    pub fn most(self) -> usize
        ensures { result ≡ most self }
    {
        match self {
            Digits::Seven => 7,
            Digits::Ten => 10,
        }
    }
}

/// How many digits stand at the front.
fn digits_in_front(text: &[u8]) -> usize
    ensures { result ≡ length (take_while is_ascii_digit text.now) }
{
    text.iter().take_while(|byte| byte.is_ascii_digit()).count()
}

/// The number at `at`, of one digit at least, and the place after it.
pub fn number(text: &[u8], at: usize, digits: Digits) -> Result<(u64, usize), Malformed>
    ensures is { result ≡ numeral (most digits) at (drop at text.now) }
    ensures inside { IfOk result (λ x. (at < x.1) × (x.1 ≤ length text.now)) }
{
    let rest = text.get(at..).ok_or(Malformed)?;
    // one digit too many is enough to refuse a number, however many follow
    let room = rest.len().min(digits.most() + 1);
    let count = digits_in_front(&rest[..room]);
    if count == 0 || count > digits.most() {
        return Err(Malformed);
    }
    let mut value = 0;
    for digit in &rest[..count] {
        value = value * 10 + u64::from(digit - b'0');
    }
    Ok((value, at + count))
}
