/// What the pairs of one slot share: from which minute on a vehicle can run empty, and what is saved beside that walk. The walk
/// after a row's trip begins when this arrives. The walk before a column's trip begins, seen backward, when this leaves: there
/// minutes count back from the last one.
#[derive(Clone, Copy)]
pub struct Share {
    pub ready: u16,
    pub saved: u64,
}
