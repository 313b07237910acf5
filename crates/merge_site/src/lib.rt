//! A site: a tree on which many groups are merged through the journal, event by event.
//!
//! **A contract sees** a [`Site`] as its account: the machine of all groups, the events so far with
//! what their devices answered, what each group wishes, the ownership book and the tree as they were
//! handed in and as they are, and the sink. A call on the tree alone is seen as the event of the
//! machine that it performs.
//!
//! **Proved**: over any tree, a call is its event. Each method of a site adds its event with its
//! device's answer, and only that; a refused one adds none. Whatever came and whatever was
//! answered, each crash image of each moment since the opening recovers to the opening with the
//! groups applied that were committed then, all settled ones among them ([`Site::promise`]). A claim
//! is granted where the book takes it and nothing that nobody owns is in the way in the tree, and
//! else told its cause; the book has the claims of the groups under way, and what the others left.
//!
//! **Only tested**: groups in many orders of their events, stopped at each call, and that with ample
//! memory each call answers.
//!
//! ```
//! let mut site = Site::open(alloc, tree, sink, book, groups)?;
//! site.begin(group);
//! site.put_token(group)?;
//! site.sync_sealed(group)?;
//! ```
#![tactic(auto)]

mod calls;
mod claims;
mod ending;
mod fault;
mod gates;
mod group;
mod history;
mod job;
mod judging;
mod logged;
mod moves;
mod open;
mod owned;
mod reads;
mod records;
mod site;
mod staging;
mod steps;
mod waiting;
mod wishes;

pub use calls::{
    close_gate, open_gate, place_path, put_record, put_stage, put_token, quiet_events, remove_path,
    sync_group,
};
pub use fault::{ClaimStop, SiteFault, StageFault};
pub use group::SiteGroup;
pub use history::{Happened, What};
pub use site::Site;
