/// What a search looks at in one step. A column is named by its place in the order of columns.
#[derive(Clone, Copy)]
pub enum Look {
    /// The pair of a row and the column at a place.
    Visited(u16, u16),
    /// A row that a rule names, and the column at a place, which it may not fit.
    Tried(u16, u16),
    /// A group of columns, of which a row visits none.
    Passed(u16, usize),
    /// A row that is led: it visits no column.
    Led(u16),
}
