ghost use Rattle.std.specs.Prelude.{◌≡◌, IfOk};
ghost use Rattle.basics.specs.Limits.{most_groups};
ghost use Rattle.pms_names.specs.Flags.{byte_order};
ghost use Rattle.pkg_state.specs.Package.{line_of};
ghost use Rattle.plan_lives.specs.Lives.{life_of, moment_of};
ghost use Rattle.plan_lives.specs.Stretches.{IsWithin};
ghost use Rattle.plan_rules.specs.Order.{life_key, number_of};

use crate::asked::Asked;
use pkg_state::LineName;
use plan_lives::Life;
use plan_rules::number_of;
use std::alloc::{AllocError, Global};
use std::cmp::Ordering;

/// A package to try, with what it asks of the binds, and with the number and the line by which its
/// turn comes.
#[derive(Drop)]
pub(crate) struct Tried<'l, 'b, 'a> {
    pub(crate) life: Life<'l>,
    pub(crate) asked: Option<&'b Asked<'a>>,
    number: usize,
    line: LineName,
    ghost number_is: { number ≡ number_of (moment_of life.birth) },
    ghost line_is: { line ≡ line_of life.pkg.now.facts },
}

pub(crate) fn with_turn<'l, 'b, 'a>(
    alloc: Global,
    life: &Life<'l>,
    asked: Option<&'b Asked<'a>>,
) -> Result<Tried<'l, 'b, 'a>, AllocError>
    requires { IsWithin most_groups (life_of life.now).birth }
    ensures life { IfOk result (λ t. life_of t.life ≡ life_of life.now) }
    ensures asked { IfOk result (λ t. t.asked ≡ asked.entry) }
{
    let pkg = life.pkg;
    let line = pkg.line(alloc)?;
    Ok(Tried {
        life: *life,
        asked,
        number: number_of(life.birth),
        line,
    })
}

pub(crate) fn by_turn(a: &Tried<'_, '_, '_>, b: &Tried<'_, '_, '_>) -> Ordering
    ensures { result ≡
        byte_order (life_key (life_of a.now.life)) (life_key (life_of b.now.life)) }
{
    a.number.cmp(&b.number).then(a.line.cmp(&b.line))
}
