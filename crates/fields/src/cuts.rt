// Parts of a sheet: what stands before and after a mark.
ghost use Rattle.std.specs.Prelude.{◌≡◌, length};
ghost use Rattle.fields.specs.Parts.{before, after, seen, fields, FirstLine};

// The bytes before the first `mark`, and those after it if it stands there.
pub fn cut<'a>(bytes: &'a [u8], mark: u8) -> (&'a [u8], Option<&'a [u8]>)
    ensures front { result.0.now ≡ before mark bytes.now }
    ensures back { seen result.1 ≡ after mark bytes.now }
{
    match bytes.iter().position(|b| *b == mark) {
        Some(i) => (&bytes[..i], Some(&bytes[i + 1..])),
        None => (bytes, None),
    }
}

// The first line of what is left of a sheet and what follows it, or none where nothing is left.
pub fn cut_line<'a>(rest: &'a [u8]) -> Option<(&'a [u8], &'a [u8])>
    ensures { FirstLine rest.now result }
{
    if rest.is_empty() {
        return None;
    }
    let (line, after) = cut(rest, b'\n');
    Some((line, after.unwrap_or(&[])))
}

// How many fields a line has.
pub fn count_fields(line: &[u8]) -> usize
    ensures { result ≡ length (fields line.now) }
{
    line.split(|b| *b == b'\t').count()
}
