use sheet::PartNumber;

// What a text held beside its parts: how many paths, and the feed part.
#[derive(Clone, Copy)]
pub struct Found {
    pub path_count: usize,
    pub feed: PartNumber,
}
