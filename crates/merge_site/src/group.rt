use merge_record::OwnerKey;

/// What a group brings to a site: the groups that it waits for, the packages that go with it, and
/// the line that tells that it is done.
#[derive(Drop)]
pub struct SiteGroup {
    pub after: Vec<u32>,
    pub dying: Vec<OwnerKey>,
    pub line: Vec<u8>,
}
