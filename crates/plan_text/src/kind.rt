ghost use Rattle.std.specs.Prelude.{◌≡◌, IfNone, IfSome, MatchOption};
ghost use Rattle.plan_text.specs.Reading.{IsNoHead};
ghost use Rattle.plan_text.specs.Lines.{head_text};

/// What a line of a plan's text is for.
#[derive(Clone, Copy, Debug)]
pub(crate) enum Kind {
    /// `plan 1`, the first line.
    Plan,
    /// `group 1`
    Group,
    /// `after 1 2`
    After,
    /// `remove dev-libs/icu-73.1:0`
    Remove,
    /// `add dev-libs/icu-74.2:0/74 doc`
    Add,
    /// `bind 0/74`
    Bind,
}

impl Kind {
    /// The word with which lines of the kind begin.
    pub(crate) fn head(self) -> &'static str
        ensures { result.now ≡ head_text self }
    {
        match self {
            Kind::Plan => "plan",
            Kind::Group => "group",
            Kind::After => "after",
            Kind::Remove => "remove",
            Kind::Add => "add",
            Kind::Bind => "bind",
        }
    }

    /// The kind of the lines that begin with the word.
    pub(crate) fn of_head(word: &str) -> Option<Kind>
        ensures { MatchOption result (IsNoHead word.now) (λ kind. word.now ≡ head_text kind) }
    {
        match word {
            "plan" => Some(Kind::Plan),
            "group" => Some(Kind::Group),
            "after" => Some(Kind::After),
            "remove" => Some(Kind::Remove),
            "add" => Some(Kind::Add),
            "bind" => Some(Kind::Bind),
            _ => None,
        }
    }
}
