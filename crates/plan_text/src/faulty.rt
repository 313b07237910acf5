ghost use Rattle.std.specs.Prelude.{◌≡◌};
ghost use Rattle.plan_text.specs.Faults.{Names, TellsLine, line_number};

use crate::fault::PlanTextFault;
use crate::line::words;
use crate::number::read_number;
use crate::standing::rise_between;
use crate::words::{first_word, read_numbers};
use basics::MOST_GROUPS;
use std::alloc::Global;

/// The fault of a line behind which no plan goes on: so many groups have begun before it, and so
/// many lines stand before it.
pub(crate) fn fault_at(alloc: Global, groups: u32, before: usize, text: &str) -> PlanTextFault
    ensures { TellsLine groups before result }
{
    let line = line_number(before);
    let Ok(words) = words(alloc, text) else {
        return PlanTextFault::Memory;
    };
    let Some((head, said)) = first_word(&words) else {
        return PlanTextFault::Line { line };
    };
    match head {
        "group" => group_fault(groups, line, said),
        "after" => after_fault(alloc, groups, line, said),
        _ => PlanTextFault::Line { line },
    }
}

fn group_fault(groups: u32, line: u32, said: &[&str]) -> PlanTextFault
    ensures { Names groups line result }
{
    let Some((word, _)) = first_word(said) else {
        return PlanTextFault::Line { line };
    };
    match read_number(word) {
        Some(number) if number - 1 == groups => {
            if groups < MOST_GROUPS {
                PlanTextFault::Line { line }
            } else {
                PlanTextFault::Limit
            }
        }
        _ => PlanTextFault::Number { line },
    }
}

fn after_fault(alloc: Global, groups: u32, line: u32, said: &[&str]) -> PlanTextFault
    ensures { Names groups line result }
{
    if said.is_empty() {
        return PlanTextFault::Line { line };
    }
    match read_numbers(alloc, said) {
        Ok(Some(numbers)) => {
            if rise_between(0, groups, &numbers) {
                PlanTextFault::Line { line }
            } else {
                PlanTextFault::NotBefore { line }
            }
        }
        Ok(None) => PlanTextFault::Number { line },
        Err(_) => PlanTextFault::Memory,
    }
}

/// The number of the line behind so many.
fn line_number(before: usize) -> u32
    ensures { result ≡ line_number before }
{
    u32::try_from(before).unwrap_or(u32::MAX).saturating_add(1)
}
