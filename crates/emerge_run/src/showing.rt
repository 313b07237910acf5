ghost use Rattle.std.specs.Prelude.{◌≡◌, ◌⊎◌, ◌≤◌, IsTrue, string_bytes};
ghost use Rattle.file_tree.specs.Disk.{Rose};
ghost use Rattle.file_tree.specs.Output.{Wrote};
ghost use Rattle.emerge_run.specs.Output.{IsCut};

use file_tree::Sink;
use merge_report::Status;

/// Writes the text of a plan, which is only shown.
pub fn show_plan<S: Sink>(out: &mut S, text: &str) -> Status
    ensures status { (result ≡ Status.Ok 0) ⊎ (result ≡ Status.OutputFault) }
    ensures written { IsTrue S.tells → Wrote
        (IsCut (Rose (S.faults out.old) (S.faults out.new)) text.now result)
        (S.written out.old) (S.written out.new) }
    ensures output { result ≡ Status.OutputFault → Rose (S.faults out.old) (S.faults out.new) }
    ensures out_count { S.faults out.old ≤ S.faults out.new }
{
    match out.write(text.as_bytes()) {
        Ok(()) => Status::Ok { groups: 0 },
        Err(_) => Status::OutputFault,
    }
}
