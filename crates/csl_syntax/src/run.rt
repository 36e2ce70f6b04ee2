// Runs of bytes.
ghost use Rattle.std.specs.Prelude.{◌≡◌, ℕ, ◌∷◌, ◌++◌, List, All, IsTrue, not};
ghost use Rattle.text_lines.specs.Name.{begins_name};
ghost use Rattle.csl_syntax.specs.TokenText.{is_digit_or_point};
ghost use Rattle.csl_syntax.specs.Scanner.{passes};

/// Bytes that stand together.
#[derive(Clone, Copy)]
pub enum Class {
    // In a word.
    Word,
    // In a number, before its exponent.
    Mantissa,
    Digit,
}

impl Class {
    fn passes(self, byte: u8) -> bool
        ensures { result ≡ passes self byte }
    {
        match self {
            Class::Word => begins_word(byte) || byte.is_ascii_digit(),
            Class::Mantissa => is_digit_or_point(byte),
            Class::Digit => byte.is_ascii_digit(),
        }
    }
}

/// Whether a word begins with the byte: an ASCII letter or `_`.
pub fn begins_word(byte: u8) -> bool
    ensures { result ≡ begins_name byte }
{
    byte.is_ascii_alphabetic() || byte == b'_'
}

/// Whether what begins as a number begins with the byte.
pub fn is_digit_or_point(byte: u8) -> bool
    ensures { result ≡ is_digit_or_point byte }
{
    byte.is_ascii_digit() || byte == b'.'
}

/// The longest run of bytes of the class, and what comes after it.
pub fn split_run(bytes: &[u8], class: Class) -> (&[u8], &[u8])
    ensures split { bytes.now ≡ result.0.now ++ result.1.now }
    ensures all { All (λ b. IsTrue (passes class b)) result.0.now }
    ensures ends { (b : ℕ) (more : List ℕ) → result.1.now ≡ b ∷ more → IsTrue (not (passes class b)) }
{
    match bytes.iter().position(|byte| !class.passes(*byte)) {
        Some(end) => bytes.split_at(end),
        None => (bytes, &[]),
    }
}
