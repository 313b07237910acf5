ghost use Rattle.std.specs.Prelude.{◌≡◌, ◌==◌, ◌&&◌, ◌+◌, nat_lt, true};
ghost use Rattle.plan_text.specs.Numbers.{rise_between};
ghost use Rattle.plan_text.specs.Reading.{line_value};
ghost use Rattle.plan_text.specs.Standing.{behind, follows, is_bare, may_end, standing_value};
ghost use Rattle.plan_text.specs.Standing.{takes, takes_addition, takes_removal};
ghost use Rattle.basics.specs.Limits.{most_groups};

use crate::line::Line;
use crate::words::is_before;
use basics::MOST_GROUPS;

/// What the last line of a text was.
#[derive(Clone, Copy)]
pub(crate) enum Place {
    /// There was none.
    Start,
    Header,
    Group,
    After,
    Removals,
    /// An addition, or a bind of one.
    Additions,
}

/// Where reading stands behind some lines.
#[derive(Clone, Copy)]
pub(crate) struct Standing<'a> {
    /// How many groups have begun.
    pub(crate) groups: u32,
    pub(crate) place: Place,
    /// The text of the last removal or addition.
    pub(crate) last: &'a str,
}

impl<'a> Standing<'a> {
    /// Where reading stands behind the line, which is this text.
    pub(crate) fn behind(&self, line: &Line, text: &'a str) -> Standing<'a>
        requires few { follows (standing_value self.now) (line_value line.now) ≡ true }
        ensures { standing_value result ≡
            behind (line_value line.now).kind (standing_value self.now) text.now }
    {
        let (groups, place, last) = (self.groups, self.place, self.last);
        match line {
            Line::Plan => Standing {
                groups,
                place: Place::Header,
                last,
            },
            Line::Group(_) => Standing {
                groups: groups + 1,
                place: Place::Group,
                last,
            },
            Line::After(_) => Standing {
                groups,
                place: Place::After,
                last,
            },
            Line::Remove(_) => Standing {
                groups,
                place: Place::Removals,
                last: text,
            },
            Line::Add(_) => Standing {
                groups,
                place: Place::Additions,
                last: text,
            },
            Line::Bind(_) => Standing {
                groups,
                place,
                last,
            },
        }
    }
}

/// Whether a text may end here.
pub(crate) fn may_end(place: Place) -> bool
    ensures { result ≡ may_end place }
{
    match place {
        Place::Header | Place::Removals | Place::Additions => true,
        Place::Start | Place::Group | Place::After => false,
    }
}

/// Whether the line may follow, which is this text.
pub(crate) fn follows(standing: &Standing<'_>, line: &Line, text: &str) -> bool
    ensures { result ≡ takes (line_value line.now).kind (line_value line.now).said
        (standing_value standing.now) text.now }
{
    let place = standing.place;
    match line {
        Line::Plan => matches!(place, Place::Start),
        Line::Group(number) => takes_group(place, standing.groups, *number),
        Line::After(numbers) => takes_after(place, standing.groups, numbers),
        Line::Remove(_) => takes_removal(place, standing.last, text),
        Line::Add(_) => takes_addition(place, standing.last, text),
        Line::Bind(_) => matches!(place, Place::Additions),
    }
}

fn takes_group(place: Place, groups: u32, number: u32) -> bool
    ensures { result ≡ (may_end place && (number == groups + 1 && nat_lt groups most_groups)) }
{
    may_end(place) && is_next(number, groups)
}

fn takes_after(place: Place, groups: u32, numbers: &[u32]) -> bool
    ensures { result ≡ (is_bare place && rise_between 0 groups numbers.now) }
{
    is_bare(place) && rise_between(0, groups, numbers)
}

fn is_bare(place: Place) -> bool
    ensures { result ≡ is_bare place }
{
    matches!(place, Place::Group)
}

/// Whether a group may begin with this number behind so many.
fn is_next(number: u32, groups: u32) -> bool
    ensures { result ≡ (number == groups + 1 && nat_lt groups most_groups) }
{
    groups < MOST_GROUPS && number == groups + 1
}

/// Whether the numbers rise from above the one and stay below the other.
pub(crate) fn rise_between(low: u32, high: u32, numbers: &[u32]) -> bool
    ensures { result ≡ rise_between low high numbers.now }
{
    let mut last = low;
    for number in numbers {
        if !is_between(last, *number, high) {
            return false;
        }
        last = *number;
    }
    true
}

fn is_between(low: u32, number: u32, high: u32) -> bool
    ensures { result ≡ (nat_lt low number && nat_lt number high) }
{
    low < number && number < high
}

fn takes_removal(place: Place, last: &str, text: &str) -> bool
    ensures { result ≡ takes_removal place last.now text.now }
{
    match place {
        Place::Start | Place::Header | Place::Additions => false,
        Place::Group | Place::After => true,
        Place::Removals => is_before(last, text),
    }
}

fn takes_addition(place: Place, last: &str, text: &str) -> bool
    ensures { result ≡ takes_addition place last.now text.now }
{
    match place {
        Place::Start | Place::Header => false,
        Place::Group | Place::After | Place::Removals => true,
        Place::Additions => is_before(last, text),
    }
}
