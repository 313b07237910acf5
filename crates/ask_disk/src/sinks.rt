//! The steps of a sink in memory: `fail N` makes the write of that number fail and has no answer,
//! `write BYTES` writes, `written` tells the bytes so far, and `refused` how many growths were
//! refused.

use ask_lines::{bytes_of, cut, not_in_form, number_of, push_between, push_hex};
use file_tree::Sink;
use std::alloc::{AllocError, Global};
use std::io;
use tree_mem::MemSink;

/// The answers of a sink to these steps.
pub fn answers(alloc: Global, fields: &str) -> io::Result<String> {
    let mut sink = MemSink::new(alloc);
    let mut text = String::new(alloc);
    for field in fields.split('\t') {
        let (step, rest) = cut(field, ' ');
        if step == "fail" {
            sink.fail_at(number_of(rest)?)?;
        } else {
            push_between(&mut text, "\t")?;
            push_answer(alloc, &mut text, &mut sink, step, rest)?;
        }
    }
    Ok(text)
}

fn push_answer(
    alloc: Global,
    text: &mut String,
    sink: &mut MemSink,
    step: &str,
    rest: &str,
) -> io::Result<()> {
    match step {
        "write" => text.push_str(write(sink, &bytes_of(alloc, rest)?))?,
        "written" => push_hex(text, sink.bytes())?,
        "refused" => push_number(text, sink.refused())?,
        _ => return Err(not_in_form()),
    }
    Ok(())
}

fn push_number(text: &mut String, number: u64) -> Result<(), AllocError> {
    write!(text, "{number}")
}

fn write<S: Sink + Send>(sink: &mut S, bytes: &[u8]) -> &'static str {
    match sink.write(bytes) {
        Ok(()) => "ok",
        Err(_) => "failed",
    }
}
