ghost use Rattle.std.specs.Prelude.{◌≡◌};
ghost use Rattle.basics.specs.Bytes.{is_digit, is_lower};

/// Whether a byte is an ASCII digit.
pub fn is_digit(byte: u8) -> bool
    ensures { result ≡ is_digit byte }
{
    byte >= b'0' && byte <= b'9'
}

/// Whether a byte is an ASCII letter in lower case.
pub fn is_lower(byte: u8) -> bool
    ensures { result ≡ is_lower byte }
{
    byte >= b'a' && byte <= b'z'
}
