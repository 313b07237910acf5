ghost use Rattle.std.specs.Prelude.{◌≡◌, Some};
ghost use Rattle.choice_law.specs.Laws.{CountNothing, IsUniverse};
ghost use Rattle.choice_law.specs.Universe.{Value, package_of};
ghost use Rattle.choice_tree.specs.Views.{offer_of, universe_of};
ghost use Rattle.dep_tree.specs.View.{trees};
ghost use Rattle.pkg_state.specs.Package.{Package};
ghost use Rattle.resolver.specs.Form.{AreOffers, ArePlain, IsPlain};

use choice_tree::{Offer, Universe};
use dep_tree::DepTree;
use pkg_state::{Class, Pkg};

// No group of what is read counts its members. Nothing is done: it is so of each tree.
fn tree_is_plain(_tree: &DepTree)
    ensures { CountNothing (trees _tree.now).groups }
{}

fn package_is_plain(one: &Pkg)
    ensures { IsPlain one.now }
{
    tree_is_plain(one.tree(Class::Rdepend));
    tree_is_plain(one.tree(Class::Pdepend));
    tree_is_plain(one.tree(Class::Depend));
    tree_is_plain(one.tree(Class::Bdepend));
    tree_is_plain(one.tree(Class::Idepend));
}

fn one_if_any(one: &Option<Pkg>)
    ensures { (p : Package) → one.now ≡ Some p → IsPlain p }
{
    match one {
        Some(one) => package_is_plain(one),
        None => {}
    }
}

fn all_are_plain(all: &[Pkg])
    ensures { ArePlain all.now }
{
    for one in all {
        package_is_plain(one);
    }
}

fn offer_is_plain(offer: &Offer)
    ensures { (v : Value) (p : Package) → package_of (offer_of offer.now) v ≡ Some p → IsPlain p }
{
    one_if_any(&offer.installed);
    all_are_plain(&offer.variants);
}

fn offers_are_plain(offers: &[Offer])
    ensures { AreOffers offers.now }
{
    for offer in offers {
        offer_is_plain(offer);
    }
}

/// No group of the dependencies in a universe counts its members.
pub(crate) fn universe_is_plain(universe: &Universe)
    ensures { IsUniverse (universe_of universe.now) }
{
    offers_are_plain(&universe.offers);
}
