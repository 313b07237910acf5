use basics::Text;

/// A word of a variable whose values are flags, such as USE.
#[derive(Debug, Drop)]
pub struct FlagWord {
    /// What the names of the variable's flags begin with.
    pub prefix: Text,
    pub word: Text,
}
