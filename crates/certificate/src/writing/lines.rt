//! Lines of a text, each made in room of its own.

ghost use Rattle.std.specs.Prelude.{◌≡◌, ◌≤◌, ◌++◌, ◌+◌, length};
ghost use Rattle.arrayvec.specs.ArrayVec.{array_vec_len};
ghost use Rattle.definitions.specs.Decimal.{numeral, number_line};
ghost use Rattle.certificate.specs.Spelling.{arc_line, weight_text};

use arrayvec::ArrayVec;
use definitions::NetArc;
use itoa::Buffer;

/// The bytes of a line.
pub type Line = ArrayVec<u8, 256>;

/// The line of a word and a number.
pub fn number_line(word: &str, number: u128) -> Line
    requires { length word.now ≤ 16 }
    ensures line { result.items ≡ number_line word.now number }
{
    let mut line = Line::new();
    push(&mut line, word.as_bytes());
    push(&mut line, b" ");
    push_number(&mut line, number);
    push(&mut line, b"\n");
    line
}

/// The line of an arc.
pub fn arc_line(arc: &NetArc) -> Line
    ensures line { result.items ≡ arc_line arc.now }
{
    let mut line = Line::new();
    push(&mut line, b"a ");
    push_number(&mut line, u128::from(arc.tail));
    push(&mut line, b" ");
    push_number(&mut line, u128::from(arc.head));
    push(&mut line, b" ");
    push_number(&mut line, u128::from(arc.cost));
    push(&mut line, b" ");
    push_weight(&mut line, arc.weight);
    push(&mut line, b"\n");
    line
}

// Appends the weight of an arc.
fn push_weight(line: &mut Line, weight: Option<u32>)
    requires room { array_vec_len line.old + 40 ≤ 256 }
    ensures line { line.new.items ≡ line.old.items ++ weight_text weight }
    ensures short { array_vec_len line.new ≤ array_vec_len line.old + 40 }
{
    match weight {
        None => push(line, b"-"),
        Some(weight) => push_number(line, u128::from(weight)),
    }
}

// Appends a number.
fn push_number(line: &mut Line, number: u128)
    requires room { array_vec_len line.old + 40 ≤ 256 }
    ensures line { line.new.items ≡ line.old.items ++ numeral number }
    ensures short { array_vec_len line.new ≤ array_vec_len line.old + 40 }
{
    let mut digits = Buffer::new();
    push(line, digits.format(number).as_bytes());
}

// Appends a text.
fn push(line: &mut Line, text: &[u8])
    requires room { array_vec_len line.old + length text.now ≤ 256 }
    ensures line { line.new.items ≡ line.old.items ++ text.now }
    ensures long { array_vec_len line.new ≡ array_vec_len line.old + length text.now }
{
    let _ = line.try_extend_from_slice(text);
}
