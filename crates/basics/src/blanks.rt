ghost use Rattle.std.specs.Prelude.{◌≡◌};
ghost use Rattle.basics.specs.Blanks.{is_blank};

/// The four bytes that part the words of a text.
pub const SPACE: u8 = b' ';

pub const TAB: u8 = b'\t';

pub const NEWLINE: u8 = b'\n';

pub const CARRIAGE_RETURN: u8 = b'\r';

/// Whether a byte is a blank, in every text format of the workspace.
pub fn is_blank(byte: u8) -> bool
    ensures { result ≡ is_blank byte }
{
    byte == SPACE || byte == TAB || byte == NEWLINE || byte == CARRIAGE_RETURN
}
