ghost use Rattle.std.specs.Prelude.{◌↔◌, IsTrue};
ghost use Rattle.pms_grammar.specs.Grammar.{IsVersionText};

/// Whether the whole text is a version, of any length (PMS 3.2).
pub fn is_version_text(text: &str) -> bool
    ensures { IsTrue result ↔ IsVersionText text.now }
{
    pms_grammar::is_version(text.as_bytes())
}
