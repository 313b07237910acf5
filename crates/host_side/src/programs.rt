use std::io;
use std::process::Command;

/// Runs a command to its end. Where that isn't status 0, the error has these words.
pub fn run(rt: &HostRuntime, command: &mut Command, failure: &str) -> io::Result<()> {
    let status = command.status(rt)?;
    if status.success() {
        Ok(())
    } else {
        Err(io::Error::other(failure))
    }
}
