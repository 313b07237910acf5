use crate::site::Site;
use file_tree::{Sink, Tree};
use merge_core::Logged;

impl<T: Tree, S: Sink> Logged for Site<T, S> {
    ghost use Rattle.merge_site.specs.Site.{IsSameSite};

    ghost log = { λ s. s.events };

    ghost same = { IsSameSite };
}
