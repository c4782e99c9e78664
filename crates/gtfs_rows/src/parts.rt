//! Parts of a field.

ghost use Rattle.std.specs.Prelude.{◌≡◌, ◌==◌, true, false, MatchOption};
ghost use Rattle.std.specs.List.{before_first, after_first, list_any};

/// The part of a field before the first separator, and the part behind it, if it has a separator.
pub fn parted(field: &[u8], separator: u8) -> (&[u8], Option<&[u8]>)
    ensures before { result.0.now ≡ before_first (λ byte. byte == separator) field.now }
    ensures behind { MatchOption result.1
        (list_any (λ byte. byte == separator) field.now ≡ false)
        (λ rest. (list_any (λ byte. byte == separator) field.now ≡ true)
        × (rest.now ≡ after_first (λ byte. byte == separator) field.now)) }
{
    for (place, byte) in field.iter().enumerate() {
        if *byte == separator {
            return (&field[..place], Some(&field[place + 1..]));
        }
    }
    (field, None)
}
