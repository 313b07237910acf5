ghost use Rattle.std.specs.Prelude.{◌≡◌, Some};
ghost use Rattle.merge_journal.specs.Open.{is_open};

use file_tree::Object;
use merge_record::byte_of;

/// Whether the object at a gate opens it: a plain file of just the byte 1.
pub fn is_open_gate(object: &Object) -> bool
    ensures { result ≡ is_open (Some object.now) }
{
    byte_of(object.kind) == 0 && object.bytes.as_slice() == [1].as_slice()
}
