use visible_rules::{Keywords, Masks};

/// What decides which candidates are visible.
#[derive(Drop)]
pub struct VisibleRules<'a> {
    pub masks: Masks<'a>,
    pub unmasks: Masks<'a>,
    pub keywords: Keywords<'a>,
}
