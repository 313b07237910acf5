ghost use Rattle.std.specs.Prelude.{◌≡◌, IfOk};
ghost use Rattle.pkg_state.specs.Package.{line_text};

use basics::Text;
use pms_names::{Name, SlotName};
use std::alloc::{AllocError, Global};
use std::marker::Model;

/// A line: a name and a slot. Lines are ordered as their texts `category/package:slot` are.
#[derive(Debug, Drop, PartialEq, Eq, PartialOrd, Ord)]
pub struct LineName {
    text: Text,
}

impl Model for LineName {
    ghost use Rattle.std.specs.Prelude.{List, ℕ};

    ghost Value = { List ℕ };

    ghost view = { λ l. l.text };

    ghost inverse = { λ bytes. record { text = bytes } };
}

impl LineName {
    pub fn new(alloc: Global, name: &Name, slot: &SlotName) -> Result<LineName, AllocError>
        ensures { IfOk result (λ line. line ≡ line_text name.now slot.now) }
    {
        let category = name.category.text();
        let package = name.package.text();
        let slot = slot.text();
        let text = format!(in alloc; "{category}/{package}:{slot}")?;
        Ok(LineName {
            text: Text::from_string(text),
        })
    }

    pub fn text(&self) -> &str
        ensures { result.now ≡ self.now }
    {
        self.text.as_str()
    }
}
