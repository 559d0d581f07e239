// Names and numbers, as the bytes of a field.
ghost use Rattle.std.specs.Prelude.{◌≡◌};
ghost use Rattle.std.specs.List.{list_all};
ghost use Rattle.fields.specs.Words.{sign, is_name, plain, digit_after, number_of};

// A letter, a digit or a hyphen.
fn is_sign(b: u8) -> bool
    ensures { result ≡ sign b }
{
    b.is_ascii_alphabetic() || b.is_ascii_digit() || b == b'-'
}

// A byte that may stand in a line.
fn may_stand(b: u8) -> bool
    ensures { result ≡ plain b }
{
    b == b'\t' || is_sign(b)
}

// The number with a digit more, if the byte is one and the number fits.
fn digit_after(n: u16, b: u8) -> Option<u16>
    ensures { result ≡ digit_after n b }
{
    if !b.is_ascii_digit() {
        return None;
    }
    n.checked_mul(10)?.checked_add(u16::from(b - b'0'))
}

// Whether each byte of the line may stand in one.
pub fn is_plain(line: &[u8]) -> bool
    ensures { result ≡ list_all plain line.now }
{
    line.iter().all(|b| may_stand(*b))
}

fn all_signs(field: &[u8]) -> bool
    ensures { result ≡ list_all sign field.now }
{
    field.iter().all(|b| is_sign(*b))
}

// 1 to 16 letters, digits or hyphens.
pub fn is_name(field: &[u8]) -> bool
    ensures { result ≡ is_name field.now }
{
    (1..=16).contains(&field.len()) && all_signs(field)
}

// The number that a field writes in decimal, without leading zeros and at most 65,535, if it writes one.
pub fn number(field: &[u8]) -> Option<u16>
    ensures { result ≡ number_of field.now }
{
    match field {
        [] | [b'0', _, ..] => None,
        digits => digits.iter().try_fold(0u16, |n, b| digit_after(n, *b)),
    }
}
