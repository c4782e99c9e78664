//! The place of a refusal for shape.

ghost use Rattle.certificate.specs.Form.{NothingComesAfterEnd, OnePlace, PlaceIsOfTheForm, TextLeavesFormThere, WithinLineBegins, WrongByteLeaves};

/// The place of a refusal for shape is where the text leaves the form.
///
/// A text of the form is the spelling of a certificate, within the limits or not: each number has at
/// most 28 digits, each node and arc has its lines, and the destination has `g 0`. The bytes before
/// the place begin such a text, and with the byte at the place they begin none; of a text that ends
/// too early the place is its length. There is one such place at most.
///
/// It is a theorem about the definitions alone, which judge a byte by the lines that may come next:
/// what is within such a line begins a text of the form (`within_line`), and a byte with which no
/// such line begins, or any byte after the last line, leaves it (`wrong_byte`, `after_end`).
pub fn places_are_of_the_form()
    ensures within_line { WithinLineBegins }
    ensures wrong_byte { WrongByteLeaves }
    ensures after_end { NothingComesAfterEnd }
    ensures place { PlaceIsOfTheForm }
    ensures text_leaves_there { TextLeavesFormThere }
    ensures one_place { OnePlace }
{}
