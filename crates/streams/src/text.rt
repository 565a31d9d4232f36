// A word and its numbers as a line of text, in memory of a fixed size.
ghost use Rattle.std.specs.Prelude.{◌≡◌, ◌∷◌, ◌++◌, ◌+◌, ◌*◌, ◌≤◌, length, map};
ghost use Rattle.std.specs.List.{flat_map};
ghost use Rattle.arrayvec.specs.ArrayVec.{array_vec_len};
ghost use Rattle.streams.specs.Text.{ascii, decimal, spaced, line};

use arrayvec::ArrayVec;
use itoa::Buffer;

// A text of at most 64 bytes.
pub type Text = ArrayVec<u8, 64>;

// These bytes come behind the text so far.
fn put(piece: &[u8], out: &mut Text)
    requires { array_vec_len out.old + length piece.now ≤ 64 }
    ensures text { out.new.items ≡ out.old.items ++ piece.now }
    ensures len { array_vec_len out.new ≡ array_vec_len out.old + length piece.now }
{
    out.try_extend_from_slice(piece).unwrap()
}

// The same for a space and a number's decimal digits.
fn put_number(n: u64, out: &mut Text)
    requires { array_vec_len out.old + 21 ≤ 64 }
    ensures text { out.new.items ≡ out.old.items ++ (ascii " " ++ decimal n) }
    ensures len { array_vec_len out.new ≤ array_vec_len out.old + 21 }
{
    put(b" ", out);
    put(Buffer::new().format(n).as_bytes(), out);
}

// The same for several numbers.
fn put_numbers(numbers: &[u64], out: &mut Text)
    requires { array_vec_len out.old + 21 * length numbers.now ≤ 64 }
    ensures text { out.new.items ≡ out.old.items ++ flat_map spaced numbers.now }
    ensures len { array_vec_len out.new ≤ array_vec_len out.old + 21 * length numbers.now }
{
    for &n in numbers {
        put_number(n, out);
    }
}

// A word and its numbers, two at most, as in `refused 5` or `clean 17 0`.
pub fn line(word: &[u8], numbers: &[u64]) -> Text
    requires word { length word.now ≤ 21 }
    requires numbers { length numbers.now ≤ 2 }
    ensures { result.items ≡ line (word.now ∷ map decimal numbers.now) }
{
    let mut out = Text::new();
    put(word, &mut out);
    put_numbers(numbers, &mut out);
    put(b"\n", &mut out);
    out
}
