use link_slots::Slots;

/// A link: its place among the links of the image, if it has a group, how many groups are bound, and its slots.
#[derive(Drop)]
pub(crate) struct Link {
    pub entry: Option<usize>,
    pub bound: usize,
    pub slots: Slots,
}
