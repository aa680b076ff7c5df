use lean_items::FeedNo;

// What is kept of an active security.
#[derive(Clone, Copy)]
pub(crate) struct Member {
    pub(crate) feed: FeedNo,
    // whether the plan lists it
    pub(crate) listed: bool,
    // whether it is to be removed once it has no position and no live order
    pub(crate) marked: bool,
}
