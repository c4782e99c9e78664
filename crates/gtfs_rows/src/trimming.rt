//! A field without the blanks at its ends.

ghost use Rattle.std.specs.Prelude.{◌≡◌, reverse};
ghost use Rattle.gtfs_rows.specs.Records.{drop_blanks, is_blank, trimmed};

/// The field without spaces and tabs at both ends.
pub fn trimmed(field: &[u8]) -> &[u8]
    ensures value { result.now ≡ trimmed field.now }
{
    before_blanks(past_blanks(field))
}

// Whether a byte is a space or a tab.
fn is_blank(byte: u8) -> bool
    ensures value { result ≡ is_blank byte }
{
    byte == b' ' || byte == b'\t'
}

// The field without the blanks at its front.
fn past_blanks(field: &[u8]) -> &[u8]
    ensures value { result.now ≡ drop_blanks field.now }
{
    let mut rest = field;
    while rest.len() > 0 {
        if !is_blank(rest[0]) {
            return rest;
        }
        rest = &rest[1..];
    }
    rest
}

// The field without the blanks at its end.
fn before_blanks(field: &[u8]) -> &[u8]
    ensures value { result.now ≡ reverse (drop_blanks (reverse field.now)) }
{
    let mut rest = field;
    while rest.len() > 0 {
        let last = rest.len() - 1;
        if !is_blank(rest[last]) {
            return rest;
        }
        rest = &rest[..last];
    }
    rest
}
