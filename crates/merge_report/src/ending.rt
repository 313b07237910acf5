ghost use Rattle.std.specs.Prelude.{◌≡◌, ◌≤◌, ◌⊎◌, IsTrue};
ghost use Rattle.file_tree.specs.Disk.{Rose};
ghost use Rattle.file_tree.specs.Output.{Wrote};
ghost use Rattle.merge_report.specs.Last.{IsEnd, IsLast, unwritten};
ghost use Rattle.merge_report.specs.Texts.{last_line};

use crate::status::Status;
use crate::texts::{fixed_line, line_of_status};
use file_tree::Sink;
use std::alloc::Global;

/// Writes the last line, and answers the status that it names.
pub fn finish<S: Sink>(alloc: Global, out: &mut S, status: Status) -> Status
    ensures status { (result ≡ status) ⊎ ((result ≡ Status.Memory) ⊎
        ((result ≡ Status.OutputFault) × Rose (S.faults out.old) (S.faults out.new))) }
    ensures device { status ≡ Status.DeviceFault → result ≡ Status.DeviceFault }
    ensures written { IsTrue S.tells → Wrote
        (IsEnd (Rose (S.faults out.old) (S.faults out.new)) status result)
        (S.written out.old) (S.written out.new) }
    ensures count { S.faults out.old ≤ S.faults out.new }
{
    if let Some(line) = fixed_line(&status) {
        return write_last(out, line, status);
    }
    match line_of_status(alloc, &status) {
        Ok(line) => write_last(out, line.as_str(), status),
        Err(_) => out_of_memory(out, status),
    }
}

/// Writes the line of want of memory in place of that of the status.
fn out_of_memory<S: Sink>(out: &mut S, status: Status) -> Status
    ensures status { (result ≡ Status.Memory) ⊎
        ((result ≡ Status.OutputFault) × Rose (S.faults out.old) (S.faults out.new)) }
    ensures written { IsTrue S.tells → Wrote
        (IsLast (Rose (S.faults out.old) (S.faults out.new)) Status.Memory result)
        (S.written out.old) (S.written out.new) }
    ensures count { S.faults out.old ≤ S.faults out.new }
{
    drop(status);
    write_last(out, "emerge: Memory\n", Status::Memory)
}

/// Writes a status's line, and answers the status, or what becomes of it where that failed.
fn write_last<S: Sink>(out: &mut S, line: &str, status: Status) -> Status
    requires line { line.now ≡ last_line status }
    ensures status { (result ≡ status) ⊎ ((result ≡ Status.OutputFault) ×
        Rose (S.faults out.old) (S.faults out.new)) }
    ensures device { status ≡ Status.DeviceFault → result ≡ Status.DeviceFault }
    ensures written { IsTrue S.tells → Wrote
        (IsLast (Rose (S.faults out.old) (S.faults out.new)) status result)
        (S.written out.old) (S.written out.new) }
    ensures count { S.faults out.old ≤ S.faults out.new }
{
    match out.write(line.as_bytes()) {
        Ok(()) => status,
        Err(_) => unwritten(status),
    }
}

/// Where the last line can't be written the status is the output's fault, but a device's fault
/// stays.
fn unwritten(status: Status) -> Status
    ensures is { result ≡ unwritten status }
    ensures cases { (result ≡ status) ⊎ (result ≡ Status.OutputFault) }
    ensures device { status ≡ Status.DeviceFault → result ≡ Status.DeviceFault }
{
    match status {
        Status::DeviceFault => Status::DeviceFault,
        _ => Status::OutputFault,
    }
}
