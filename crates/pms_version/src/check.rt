ghost use Rattle.pms_version.specs.Limits.{HasShortNumbers, digit_count};
ghost use Rattle.pms_version.specs.Reading.{FirstFault, IsShortBefore};
ghost use Rattle.pms_version.specs.declared.fault.VersionFault.TheVariants.{Memory};
ghost use Rattle.std.specs.Prelude.{◌≢◌, ◌+◌, ◌<◌, ◌≤◌, IfErr, IfNone, IfSome, OnOk, drop, length};
ghost use Rattle.basics.specs.Bytes.{is_digit};
ghost use Rattle.pms_grammar.specs.Grammar.{IsVersionText};

use crate::fault::VersionFault;
use crate::limits::{MOST_BYTES, MOST_DIGITS};
use basics::is_digit;
use pms_grammar::version_stop;

/// Is the text a version's, within the limits? Takes no memory.
pub fn check(bytes: &[u8]) -> Result<(), VersionFault>
    ensures version { OnOk result (IsVersionText bytes.now) }
    ensures length { OnOk result (length bytes.now ≤ MOST_BYTES) }
    ensures short { OnOk result (HasShortNumbers bytes.now) }
    ensures fault { IfErr result (FirstFault bytes.now) }
    ensures known { IfErr result (λ e. e ≢ Memory) }
{
    if bytes.is_empty() {
        return Err(VersionFault::Empty);
    }
    if bytes.len() > MOST_BYTES {
        return Err(VersionFault::TooLong);
    }
    match long_number(bytes) {
        None => match version_stop(bytes) {
            None => Ok(()),
            Some(at) => Err(VersionFault::BadChar { at }),
        },
        Some(start) => match version_stop(bytes) {
            None => Err(VersionFault::TooManyDigits { at: start }),
            Some(at) => {
                // A number counts only where its first digit may stand.
                if at <= start {
                    Err(VersionFault::BadChar { at })
                } else {
                    Err(VersionFault::TooManyDigits { at: start })
                }
            }
        },
    }
}

/// Where more digits in a row begin than a number has.
fn long_number(bytes: &[u8]) -> Option<usize>
    ensures none { IfNone result (HasShortNumbers bytes.now) }
    ensures first { IfSome result (λ at. (MOST_DIGITS < digit_count (drop at bytes.now)) ×
        IsShortBefore bytes.now at) }
{
    let mut start = 0;
    for (at, byte) in bytes.iter().enumerate() {
        if !is_digit(*byte) {
            start = at + 1;
        } else if at - start == MOST_DIGITS {
            return Some(start);
        }
    }
    None
}
