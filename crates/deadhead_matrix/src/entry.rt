/// A vehicle can run empty from one place to another, both by their numbers, in so many minutes.
#[derive(Clone, Copy)]
pub struct Entry {
    pub from: u16,
    pub to: u16,
    pub minutes: u16,
}
